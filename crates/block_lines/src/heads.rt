//! What stands before the values of lines, made once for all lines of a query.

ghost use Rattle.std.specs.Prelude.{◌≡◌, ◌∷◌, ◌++◌, [], cond, slice_get, IfOk, OnOk, OnErr, option_copied};
ghost use Rattle.block_lines.specs.HeadTexts.{head_text, head_texts, AreHeads};

use json_out::put_quoted;
use lane_ssa::{EndOuts, Job};
use snel_values::{Bytes, OutOfMemory};
use std::alloc::Global;
use std::marker::Model;

/// Texts, one for each output of a job, seen as their list.
#[derive(Drop)]
pub(crate) struct Heads {
    all: Vec<Bytes>,
}

impl Model for Heads {
    ghost use Rattle.std.specs.Prelude.{List, ℕ};

    ghost Value = { List (List ℕ) };

    ghost view = { λ h. h.all.items };
}

impl Heads {
    /// No texts.
    fn new(alloc: Global) -> Heads
        ensures { result ≡ [] }
    {
        Heads {
            all: Vec::new(alloc),
        }
    }

    /// Adds a text at the end.
    fn push(&mut self, head: Bytes) -> Result<(), OutOfMemory>
        ensures ok { OnOk result (self.new ≡ self.old ++ head ∷ []) }
        ensures err { OnErr result (self.new ≡ self.old) }
    {
        self.all.push(head)?;
        Ok(())
    }

    /// The text at a place, counted from 0.
    fn get(&self, at: usize) -> Option<&[u8]>
        ensures { option_copied result ≡ slice_get self.now at }
    {
        match self.all.get(at) {
            Some(head) => Some(head.as_slice()),
            None => None,
        }
    }
}

/// The mark, the name in quotes and a colon.
fn head_of(alloc: Global, mark: &[u8], name: &str) -> Result<Bytes, OutOfMemory>
    ensures { IfOk result (λ h. h ≡ head_text mark.now name.now) }
{
    let mut head = Bytes::new(alloc);
    head.push_all(mark)?;
    put_quoted(&mut head, name)?;
    head.push_all(b":")?;
    Ok(head)
}

/// These texts for the outputs, in order.
fn heads_of(alloc: Global, mark: &[u8], outs: &EndOuts) -> Result<Heads, OutOfMemory>
    ensures { IfOk result (λ h. h ≡ head_texts mark.now outs.now) }
{
    let mut heads = Heads::new(alloc);
    for at in 0..outs.len() {
        let Some(out) = outs.get(at) else {
            unreachable!();
        };
        let head = head_of(alloc, mark, out.name.as_str())?;
        heads.push(head)?;
    }
    Ok(heads)
}

/// What stands before the value of each output of a job: `{` and the name where the value is the first of its line, a comma
/// and the name where it isn't.
#[derive(Drop)]
pub struct LineHeads {
    opening: Heads,
    following: Heads,
}

impl LineHeads {
    /// Those of the job's outputs.
    pub fn of(alloc: Global, job: &Job) -> Result<LineHeads, OutOfMemory>
        ensures { IfOk result (λ h. AreHeads job.now.ends.outs h) }
    {
        let outs = &job.ends().outs;
        let opening = heads_of(alloc, b"{", outs)?;
        let following = heads_of(alloc, b",", outs)?;
        Ok(LineHeads { opening, following })
    }

    /// What stands before the value of the output at a place, counted from 0, where a pair stands before it or doesn't.
    pub(crate) fn get(&self, at: usize, later: bool) -> Option<&[u8]>
        ensures { option_copied result ≡ slice_get
            (cond later self.now.following self.now.opening) at }
    {
        if later {
            self.following.get(at)
        } else {
            self.opening.get(at)
        }
    }
}
