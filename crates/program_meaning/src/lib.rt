//! Programs of instructions, what they show in a lane, and when a job simulates a query. Nothing here runs: each function is a
//! law of the definitions.
#![tactic(auto)]

ghost use Rattle.program_meaning.specs.Laws.{ChunksAreSimulated, ProgramsMakeTheirRegisters, RegistersStay};

/// A program makes as many registers as it has instructions of their class.
pub fn programs_make_their_registers()
    ensures { ProgramsMakeTheirRegisters }
{}

/// The registers of a program stay as they are when it goes on.
pub fn registers_stay()
    ensures { RegistersStay }
{}

/// A job that simulates a query does so for any chunk of any rows.
pub fn chunks_are_simulated()
    ensures { ChunksAreSimulated }
{}
