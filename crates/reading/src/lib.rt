// Reading: the reader, and its laws.
#![tactic(auto)]

pub mod outcomes;
pub mod piles;
pub mod runs;
mod stack;
pub mod turns;

ghost use Rattle.reading.specs.Cases.{CasesHold, WorkedHold};
ghost use Rattle.reading.specs.Reader.{SoundReader, CompleteReader, Unambiguous};
ghost use Rattle.reading.specs.Promise.{ReadsWell, OneAnswer, WorkedOut, KeepsLimits, AnswersAlways};
ghost use Rattle.reading.specs.Building.{RowsFaithful, GrantedUseful, RowsReadWell, RowsAnswer, BuildAndRead};

// The laws of the reader without limits.
pub fn reader_laws_stand() -> u8
    ensures sound_reader { SoundReader }
    ensures complete_reader { CompleteReader }
    ensures unambiguous { Unambiguous }
{
    0
}

// The laws of a read with its limits.
pub fn reading_laws_stand() -> u8
    ensures reads_well { ReadsWell }
    ensures one_answer { OneAnswer }
    ensures worked_out { WorkedOut }
    ensures keeps_limits { KeepsLimits }
    ensures answers_always { AnswersAlways }
{
    0
}

// The laws of a read on the tables of a build.
pub fn building_laws_stand() -> u8
    ensures rows_faithful { RowsFaithful }
    ensures granted_useful { GrantedUseful }
    ensures rows_read_well { RowsReadWell }
    ensures rows_answer { RowsAnswer }
    ensures build_and_read { BuildAndRead }
{
    0
}

// That the definitions yield every worked case.
pub fn cases_stand() -> u8
    ensures { CasesHold }
{
    0
}

// That the definitions yield every worked case, of building and of reading.
pub fn worked_cases_stand() -> u8
    ensures { WorkedHold }
{
    0
}
