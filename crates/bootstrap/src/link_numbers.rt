//! Links by their numbers.

ghost use Rattle.std.specs.Prelude.{◌≡◌, ◌<◌};
ghost use Rattle.bootstrap.specs.LinkNumbers.{link_number};

use link_channels::LinkNumber;

/// The link of a number below 4.
pub fn link_of(number: u8) -> LinkNumber
    requires { number < 4 }
    ensures answer { link_number result ≡ number }
{
    match number {
        0 => LinkNumber::Zero,
        1 => LinkNumber::One,
        2 => LinkNumber::Two,
        _ => LinkNumber::Three,
    }
}

/// The number of a link, 0 to 3.
pub fn link_number_of(link: LinkNumber) -> u8
    ensures answer { result ≡ link_number link }
{
    match link {
        LinkNumber::Zero => 0,
        LinkNumber::One => 1,
        LinkNumber::Two => 2,
        LinkNumber::Three => 3,
    }
}
