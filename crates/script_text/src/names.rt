//! Values that have names.
ghost use Rattle.std.specs.Prelude.{◌≡◌, None, IfSome};
ghost use Rattle.script_text.specs.Names.{NamesValue, NamesNothing};

/// The value of a name in a table of names and their values. If the name is there more than once, it is that of one of them.
pub fn value_named<T: Copy>(table: &[(&str, T)], name: &str) -> Option<T>
    ensures value { IfSome result (NamesValue table.now name.now) }
    ensures none { result ≡ None → NamesNothing table.now name.now }
{
    for entry in table {
        if entry.0 == name {
            return Some(entry.1);
        }
    }
    None
}
