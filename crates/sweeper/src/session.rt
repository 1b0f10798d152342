// A sweeping session: the tables, and the facts that every call needs and keeps.
ghost use Rattle.sweeper.specs.Facts.{sound_prop};
ghost use Rattle.sweeper.specs.Tables.{Sound, image, state_of};
ghost use Rattle.sweeper.specs.Runs.{Reached};

use crate::core_state::Core;

#[derive(Drop)]
pub struct Session<'a> {
    pub(crate) core: Core<'a>,
    // the tables stand for the graphs
    ghost sound: { Sound (image core) } by { sound_prop (image core) },
    // some run of calls leads here
    ghost reached: { Reached (state_of (image core)) },
}
