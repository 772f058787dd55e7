//! A channel's reset.

ghost use Rattle.std.specs.Prelude.{◌≡◌};

use crate::channel::Channel;
use crate::links::Links;
use crate::soft::reset_softly;
use node_memory::{Fault, Memory};

impl Links {
    ghost use Rattle.link_channels.specs.Messages.{reset};
    ghost use Rattle.node_memory.specs.Effect.{effect_of};

    /// Frees a channel, and gives up what its link had under way; the word that the channel had: instruction set
    /// handbook, resetch.
    ///
    /// `Fault::WrongChannel` for the event channel, which is our choice; `OutsideMemory` where the channel's word lies
    /// outside. Nothing changes at a fault.
    pub fn reset(&mut self, memory: &mut Memory, channel: u32) -> Result<u32, Fault>
        ensures answer { effect_of result self.new memory.new ≡ reset channel self.old memory.old }
    {
        match Channel::of(channel) {
            Channel::Soft => reset_softly(memory, channel),
            Channel::LinkOutput(number) => {
                let word = reset_softly(memory, channel)?;
                let mut link = self.at(number);
                link.reset_output();
                self.set(number, link);
                Ok(word)
            }
            Channel::LinkInput(number) => {
                let word = reset_softly(memory, channel)?;
                let mut link = self.at(number);
                link.reset_input();
                self.set(number, link);
                Ok(word)
            }
            Channel::Event => Err(Fault::WrongChannel),
        }
    }
}
