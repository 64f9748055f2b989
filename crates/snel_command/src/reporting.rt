//! The line of a call on standard error.
ghost use Rattle.std.specs.Prelude.{◌≡◌, ◌≤◌, ◌++◌, codes, OnOk, OnErr};
ghost use Rattle.std.specs.Fmt.{decimal};
ghost use Rattle.std.specs.Io.KnownBytes.{Appends};
ghost use Rattle.query_check.specs.Faults.{limit_view, place_view};
ghost use Rattle.query_run.specs.TextFaults.{refused_view};
ghost use Rattle.snel_device.specs.Causes.{Rose};
ghost use Rattle.snel_words.specs.Asked.{ask_view};
ghost use Rattle.snel_command.specs.Messages.{about, numbered, limit_words, place_words, refused_words, query_line, why_words};
ghost use Rattle.snel_command.specs.Outcomes.{status_after};
ghost use Rattle.snel_command.specs.Lines.{limit_of, names_of, name_at, line_of, done_line, refusal_line, pack_line};
ghost use Rattle.snel_command.specs.NamesView.{names_view};

use crate::making::MOST_GROUPS;
use crate::outcome::{Done, Outcome, Refusal};
use itoa::Buffer;
use json_pack::{LineWhy, PackFault};
use query_check::{Limit, Place};
use query_run::{QueryFault, TextFault};
use snel_device::{Failed, Out};
use snel_values::Words;
use snel_words::Ask;

/// The names of the files that a command is about.
#[derive(Clone, Copy)]
pub enum Names<'w> {
    /// It is about no file.
    None,
    /// The one name.
    One(&'w str),
    /// Names as they were given.
    All(&'w Words),
}

impl<'w> Names<'w> {
    // The name of the file with this number, from 0 on.
    fn get(&self, at: u32) -> &str
        ensures { result.now ≡ name_at (names_view self.now) at }
    {
        match self {
            Names::None => "",
            Names::One(name) => if at == 0 { name } else { "" },
            Names::All(names) => names.get(at as usize).unwrap_or(""),
        }
    }
}

/// Writes the line of a call that came out so, and answers its status.
pub fn end<E: Out>(outcome: Outcome, ask: &Ask<'_>, err: &mut E) -> u8
    ensures status { result ≡ status_after outcome }
    ensures line { ¬ Rose (E.faults err.old) (E.faults err.new)
        → Appends (E.holds err.old) (E.holds err.new) (line_of (limit_of (ask_view ask.now)) (names_of (ask_view ask.now)) outcome) }
{
    report(outcome, limit_in(ask), &names_in(ask), err);
    match outcome {
        Ok(_) => 0,
        Err(refusal) => refusal.status(),
    }
}

// The most groups that a command allows.
fn limit_in(ask: &Ask<'_>) -> u32
    ensures { result ≡ limit_of (ask_view ask.now) }
{
    match ask {
        Ask::Query {
            settings,
            sql: _,
            names: _,
        } => settings.groups,
        Ask::Make { .. } => MOST_GROUPS,
        _ => 0,
    }
}

// The names of the files that a command is about.
fn names_in<'w>(ask: &'w Ask<'w>) -> Names<'w>
    ensures { names_view result ≡ names_of (ask_view ask.now) }
{
    match ask {
        Ask::Query {
            settings: _,
            sql: _,
            names,
        } => Names::All(names),
        Ask::Check { names } => Names::All(names),
        Ask::Pack { packing: _, name } => Names::One(name),
        Ask::Make {
            start: _,
            rows: _,
            name,
        } => Names::One(name),
        Ask::Nothing | Ask::Explain { sql: _ } => Names::None,
    }
}

/// Writes the line of a call with this limit on groups, over files of these names, that came out so. Where a put fails, the rest
/// of the line isn't written.
pub fn report<E: Out>(outcome: Outcome, limit: u32, names: &Names<'_>, err: &mut E)
    ensures { ¬ Rose (E.faults err.old) (E.faults err.new)
        → Appends (E.holds err.old) (E.holds err.new) (line_of limit (names_view names.now) outcome) }
{
    let _ = match outcome {
        Ok(done) => puts_done(err, done),
        Err(Refusal::Words) => puts(err, "snel: words not understood\n"),
        Err(Refusal::Query(fault)) => puts_refused(err, fault, limit, names),
        Err(Refusal::Pack(fault)) => puts_unpacked(err, fault, names),
    };
}

fn puts<E: Out>(err: &mut E, piece: &str) -> Result<(), Failed>
    ensures line { OnOk result (Appends (E.holds err.old) (E.holds err.new) piece.now) }
    ensures failed { OnErr result (Rose (E.faults err.old) (E.faults err.new)) }
    ensures later { E.faults err.old ≤ E.faults err.new }
{
    err.put(piece.as_bytes())
}

// Words and a number.
fn puts_number<E: Out>(err: &mut E, words: &str, number: u32) -> Result<(), Failed>
    ensures line { OnOk result (Appends (E.holds err.old) (E.holds err.new)
        (numbered words.now number)) }
    ensures failed { OnErr result (Rose (E.faults err.old) (E.faults err.new)) }
    ensures later { E.faults err.old ≤ E.faults err.new }
{
    let mut digits = Buffer::new();
    puts(err, words)?;
    puts(err, digits.format(number))
}

// A place of a query.
fn puts_place<E: Out>(err: &mut E, place: Place) -> Result<(), Failed>
    ensures line { OnOk result (Appends (E.holds err.old) (E.holds err.new)
        (place_words (place_view place))) }
    ensures failed { OnErr result (Rose (E.faults err.old) (E.faults err.new)) }
    ensures later { E.faults err.old ≤ E.faults err.new }
{
    match place {
        Place::Output(number) => puts_number(err, "output ", number),
        Place::Filter => puts(err, "WHERE"),
        Place::Key(number) => puts_number(err, "group key ", number),
        Place::Having => puts(err, "HAVING"),
        Place::Order(number) => puts_number(err, "order key ", number),
    }
}

// A place of a query, and what is wrong there.
fn puts_at<E: Out>(err: &mut E, place: Place, what: &str) -> Result<(), Failed>
    ensures line { OnOk result (Appends (E.holds err.old) (E.holds err.new)
        (place_words (place_view place) ++ what.now)) }
    ensures failed { OnErr result (Rose (E.faults err.old) (E.faults err.new)) }
    ensures later { E.faults err.old ≤ E.faults err.new }
{
    puts_place(err, place)?;
    puts(err, what)
}

// Words, a number, and more words.
fn puts_numbered<E: Out>(err: &mut E, words: &str, number: u32, what: &str) -> Result<(), Failed>
    ensures line { OnOk result (Appends (E.holds err.old) (E.holds err.new)
        (numbered words.now number ++ what.now)) }
    ensures failed { OnErr result (Rose (E.faults err.old) (E.faults err.new)) }
    ensures later { E.faults err.old ≤ E.faults err.new }
{
    puts_number(err, words, number)?;
    puts(err, what)
}

// What a query has too many of.
fn limit_word(limit: Limit) -> &'static str
    ensures { result.now ≡ limit_words (limit_view limit) }
{
    match limit {
        Limit::Outputs => "outputs",
        Limit::GroupKeys => "group keys",
        Limit::OrderKeys => "order keys",
        Limit::Steps => "steps",
        Limit::Aggregates => "aggregates",
    }
}

fn puts_too_many<E: Out>(err: &mut E, limit: Limit) -> Result<(), Failed>
    ensures line { OnOk result (Appends (E.holds err.old) (E.holds err.new) (codes "too many "
        ++ limit_words (limit_view limit))) }
    ensures failed { OnErr result (Rose (E.faults err.old) (E.faults err.new)) }
    ensures later { E.faults err.old ≤ E.faults err.new }
{
    puts(err, "too many ")?;
    puts(err, limit_word(limit))
}

// Why the text of a query isn't answered.
fn puts_fault<E: Out>(err: &mut E, fault: TextFault) -> Result<(), Failed>
    ensures line { OnOk result (Appends (E.holds err.old) (E.holds err.new)
        (refused_words (refused_view fault))) }
    ensures failed { OnErr result (Rose (E.faults err.old) (E.faults err.new)) }
    ensures later { E.faults err.old ≤ E.faults err.new }
{
    match fault {
        TextFault::TooLong => puts(err, "too long"),
        TextFault::BadToken(place) => puts_number(err, "bad token at byte ", place),
        TextFault::TooManyTokens => puts(err, "too many tokens"),
        TextFault::RefusedWord(place) => puts_number(err, "refused word at byte ", place),
        TextFault::TooDeep(place) => puts_number(err, "nested too deep at byte ", place),
        TextFault::NotAQuery => puts(err, "not a query"),
        TextFault::TooMany(limit) => puts_too_many(err, limit),
        TextFault::Nested(place) => puts_at(err, place, " has a misplaced aggregate"),
        TextFault::NotGrouped(place) => puts_at(err, place, " is not grouped"),
        TextFault::OverGroups(place) => puts_at(err, place, " is not allowed over groups"),
        TextFault::SameName(output) => {
            puts_numbered(err, "output ", output, " has an earlier name")
        }
        TextFault::NoSuchOrder(key) => puts_numbered(err, "order key ", key, " has no output"),
    }
}

fn puts_query<E: Out>(err: &mut E, fault: TextFault) -> Result<(), Failed>
    ensures line { OnOk result (Appends (E.holds err.old) (E.holds err.new)
        (query_line (refused_view fault))) }
    ensures failed { OnErr result (Rose (E.faults err.old) (E.faults err.new)) }
{
    puts(err, "snel: query: ")?;
    puts_fault(err, fault)?;
    puts(err, "\n")
}

// Words about the file with this number.
fn puts_about<E: Out>(err: &mut E, names: &Names<'_>, file: u32, what: &str) -> Result<(), Failed>
    ensures line { OnOk result (Appends (E.holds err.old) (E.holds err.new)
        (about (name_at (names_view names.now) file) what.now)) }
    ensures failed { OnErr result (Rose (E.faults err.old) (E.faults err.new)) }
    ensures later { E.faults err.old ≤ E.faults err.new }
{
    puts(err, "snel: ")?;
    puts(err, names.get(file))?;
    puts(err, what)
}

// The line of a bad block.
fn puts_damaged<E: Out>(err: &mut E, names: &Names<'_>, file: u32, block: u32) -> Result<(), Failed>
    ensures line { OnOk result (Appends (E.holds err.old) (E.holds err.new)
        (about (name_at (names_view names.now) file) (codes ": block " ++ (decimal block
        ++ codes " is damaged\n")))) }
    ensures failed { OnErr result (Rose (E.faults err.old) (E.faults err.new)) }
{
    puts_about(err, names, file, ": block ")?;
    puts_numbered(err, "", block, " is damaged\n")
}

// The line of what stands against a query or files.
fn puts_refused<E: Out>(
    err: &mut E,
    fault: QueryFault,
    limit: u32,
    names: &Names<'_>,
) -> Result<(), Failed>
    ensures line { OnOk result (Appends (E.holds err.old) (E.holds err.new)
        (refusal_line limit (names_view names.now) (Refusal.Query fault))) }
    ensures failed { OnErr result (Rose (E.faults err.old) (E.faults err.new)) }
{
    match fault {
        QueryFault::Text(fault) => puts_query(err, fault),
        QueryFault::Absent(file) => puts_about(err, names, file, ": no such file\n"),
        QueryFault::NotAFile(file) => puts_about(err, names, file, ": not a block file\n"),
        QueryFault::Damaged { file, block } => puts_damaged(err, names, file, block),
        QueryFault::Groups => puts_numbered(err, "snel: more than ", limit, " groups\n"),
        QueryFault::ReadFault => puts(err, "snel: files: read failed\n"),
        QueryFault::WriteFault => puts(err, "snel: write failed\n"),
        QueryFault::OutOfMemory => puts(err, "snel: out of memory\n"),
    }
}

// The line of what stands against packing.
fn puts_unpacked<E: Out>(err: &mut E, fault: PackFault, names: &Names<'_>) -> Result<(), Failed>
    ensures line { OnOk result (Appends (E.holds err.old) (E.holds err.new)
        (pack_line (names_view names.now) fault)) }
    ensures failed { OnErr result (Rose (E.faults err.old) (E.faults err.new)) }
{
    match fault {
        PackFault::Exists => puts_about(err, names, 0, ": exists already\n"),
        PackFault::Line { number, why } => puts_line(err, number, why),
        PackFault::ReadFault => puts(err, "snel: input: read failed\n"),
        PackFault::WriteFault => puts(err, "snel: write failed\n"),
        PackFault::OutOfMemory => puts(err, "snel: out of memory\n"),
    }
}

// The number of a line, and why it is refused.
fn puts_line<E: Out>(err: &mut E, number: u64, why: LineWhy) -> Result<(), Failed>
    ensures line { OnOk result (Appends (E.holds err.old) (E.holds err.new)
        (numbered (codes "snel: line ") number ++ (codes ": " ++ (why_words why ++ codes "\n")))) }
    ensures failed { OnErr result (Rose (E.faults err.old) (E.faults err.new)) }
{
    puts_line_number(err, number)?;
    puts_why(err, why)
}

fn puts_line_number<E: Out>(err: &mut E, number: u64) -> Result<(), Failed>
    ensures line { OnOk result (Appends (E.holds err.old) (E.holds err.new)
        (numbered (codes "snel: line ") number)) }
    ensures failed { OnErr result (Rose (E.faults err.old) (E.faults err.new)) }
    ensures later { E.faults err.old ≤ E.faults err.new }
{
    let mut digits = Buffer::new();
    puts(err, "snel: line ")?;
    puts(err, digits.format(number))
}

fn puts_why<E: Out>(err: &mut E, why: LineWhy) -> Result<(), Failed>
    ensures line { OnOk result (Appends (E.holds err.old) (E.holds err.new)
        (codes ": " ++ (why_words why ++ codes "\n"))) }
    ensures failed { OnErr result (Rose (E.faults err.old) (E.faults err.new)) }
    ensures later { E.faults err.old ≤ E.faults err.new }
{
    puts(err, ": ")?;
    puts(err, why_word(why))?;
    puts(err, "\n")
}

// Why a line is refused.
fn why_word(why: LineWhy) -> &'static str
    ensures { result.now ≡ why_words why }
{
    match why {
        LineWhy::TooMuch => "too much input",
        LineWhy::TooLong => "too long",
        LineWhy::NotJson => "not json",
        LineWhy::NotObject => "not an object",
        LineWhy::Number => "number",
        LineWhy::TooLarge => "too large",
        LineWhy::Full => "file full",
    }
}

// The counts of blocks, where they are told.
fn puts_done<E: Out>(err: &mut E, done: Done) -> Result<(), Failed>
    ensures line { OnOk result (Appends (E.holds err.old) (E.holds err.new) (done_line done)) }
    ensures failed { OnErr result (Rose (E.faults err.old) (E.faults err.new)) }
{
    match done {
        Done::All => Ok(()),
        Done::Counted { read, skipped } => puts_counts(err, read, skipped),
    }
}

fn puts_counts<E: Out>(err: &mut E, read: u32, skipped: u32) -> Result<(), Failed>
    ensures line { OnOk result (Appends (E.holds err.old) (E.holds err.new)
        (numbered (codes "blocks read ") read ++ (numbered (codes ", skipped ") skipped
        ++ codes "\n"))) }
    ensures failed { OnErr result (Rose (E.faults err.old) (E.faults err.new)) }
{
    puts_number(err, "blocks read ", read)?;
    puts_numbered(err, ", skipped ", skipped, "\n")
}
