//! The state of a session, on which commands are run, and the second pass over the lines of an input.
ghost use Rattle.std.specs.Prelude.{[], ◌≡◌, IfOk, OnOk, string_bytes};
ghost use Rattle.arrow_model.specs.Answer.{done, answer_of};
ghost use Rattle.arrow_model.specs.Both.{narrow_to, widen};
ghost use Rattle.arrow_model.specs.Item.{stored_slot};
ghost use Rattle.arrow_model.specs.Request.{all_slots, as_request, at, parts_request, push};
ghost use Rattle.arrow_table.specs.Width.{on_width};
ghost use Rattle.arrow_interpreter.specs.Replies.{AppendsAnswer, RunsLine, RunsRequest, at_first};

use crate::line::{CommandLine, DirectLine, ParseOffset};
use crate::listing::push_listed;
use crate::pass::{Pass, TwoNumbers};
use arrow_syntax::print::push_replies;
use arrow_syntax::readers::{Last, Words};
use arrow_table::{Command, Item, Parts, Reply, Tables, Width};
use std::alloc::{AllocError, Global};
use std::slice::from_ref;

/// The number of entries of each table.
const ENTRIES: usize = 16;

/// The tables of a session, and the text of its replies so far. Each call runs one command on the table of a width of
/// offsets and appends the text of its reply. If an allocation fails, the text may hold a beginning of it.
#[derive(Drop)]
pub struct Interpreter {
    /// The two tables.
    pub tables: Tables<i64>,
    /// The text of all replies.
    pub text: String,
}

impl Interpreter {
    /// Creates tables of empty entries, with no text.
    pub fn new(alloc: Global) -> Result<Self, AllocError>
        ensures tables { IfOk result (λ interpreter. interpreter.tables ≡ at_first) }
        ensures text { IfOk result (λ interpreter. string_bytes interpreter.text ≡ []) }
    {
        match Tables::new(alloc, ENTRIES) {
            Ok(tables) => Ok(Interpreter {
                tables,
                text: String::new(alloc),
            }),
            Err(_) => Err(AllocError),
        }
    }

    /// Drops the tables and returns the text.
    pub fn into_text(self) -> String
        ensures { string_bytes result ≡ string_bytes self.text }
    {
        self.tables.discard();
        self.text
    }

    /// Runs a command.
    #[inline(always)]
    pub fn run<O: Width>(&mut self, command: Command<i64, O>) -> Result<(), AllocError>
        ensures { OnOk result (RunsRequest (on_width O.IS_LARGE (as_request O.number command)) self.old self.new) }
    {
        let alloc = *self.text.allocator();
        let reply = O::step(&mut self.tables, alloc, &command);
        self.push_reply(reply)
    }

    /// Makes a value of raw parts, which are moved into it, in an empty entry.
    #[inline(always)]
    pub fn parts<O: Width>(&mut self, e: usize, parts: Parts<i64, O>) -> Result<(), AllocError>
        ensures { OnOk result (RunsRequest (on_width O.IS_LARGE (parts_request O.number e parts)) self.old self.new) }
    {
        let reply = O::parts(&mut self.tables, e, parts);
        self.push_reply(reply)
    }

    /// Appends a slot to the builder in an entry. No command is made for it.
    pub fn push<O: Width>(&mut self, e: usize, slot: &Option<Item<i64>>) -> Result<(), AllocError>
        ensures { OnOk result
            (RunsRequest (on_width O.IS_LARGE (at e (push (stored_slot slot.now)))) self.old self.new) }
    {
        let reply = O::push(&mut self.tables, e, slot);
        self.push_reply(reply)
    }

    /// Appends the text of all slots of an entry, which are written from where they lie.
    pub fn list<O: Width>(&mut self, e: usize) -> Result<(), AllocError>
        ensures { OnOk result (RunsRequest (on_width O.IS_LARGE (at e all_slots)) self.old self.new) }
    {
        let entry = O::get(&self.tables, e);
        push_listed(&mut self.text, entry)
    }

    /// Copies the array in the narrow entry `e` into the empty wide entry `f`.
    pub fn widen(&mut self, e: usize, f: usize) -> Result<(), AllocError>
        ensures { OnOk result (RunsRequest (widen e f) self.old self.new) }
    {
        let reply = self.tables.widen(e, f);
        self.push_reply(reply)
    }

    /// Copies the array in the wide entry `e` into the empty narrow entry `f`.
    pub fn narrow_to(&mut self, e: usize, f: usize) -> Result<(), AllocError>
        ensures { OnOk result (RunsRequest (narrow_to e f) self.old self.new) }
    {
        let reply = self.tables.narrow_to(e, f);
        self.push_reply(reply)
    }

    /// Appends the text of a reply.
    #[inline(always)]
    fn push_reply(&mut self, reply: Reply<i64>) -> Result<(), AllocError>
        ensures { OnOk result (AppendsAnswer (answer_of reply) self.old self.new) }
    {
        match reply {
            Reply::Done => self.push_done(),
            other => self.push_other(other),
        }
    }

    /// Appends the text of `Reply::Done`. Most commands have this reply, which is written with no call.
    #[inline(always)]
    fn push_done(&mut self) -> Result<(), AllocError>
        ensures { OnOk result (AppendsAnswer done self.old self.new) }
    {
        self.text.push_str("ok\n")
    }

    /// Appends the text of any reply.
    #[inline(never)]
    fn push_other(&mut self, reply: Reply<i64>) -> Result<(), AllocError>
        ensures { OnOk result (AppendsAnswer (answer_of reply) self.old self.new) }
    {
        push_replies(&mut self.text, from_ref(&reply))
    }
}

// The second pass: lines are run, and their replies appended to the text.
impl Pass for Interpreter {
    ghost Handles = { λ request old new result. IfOk result (RunsLine request old new) };

    #[inline(always)]
    fn none(&mut self) -> Result<bool, AllocError> {
        Ok(false)
    }

    #[inline(always)]
    fn line<O: ParseOffset, L: CommandLine<O>>(
        &mut self,
        number: usize,
        words: &[u8],
    ) -> Result<bool, AllocError> {
        match L::Rest::of_words(*self.text.allocator(), words)? {
            Some(rest) => {
                self.run::<O>(L::command(number, rest))?;
                Ok(true)
            }
            None => Ok(false),
        }
    }

    #[inline(always)]
    fn direct<O: ParseOffset, L: DirectLine<O>>(
        &mut self,
        number: usize,
        words: &[u8],
    ) -> Result<bool, AllocError> {
        L::run(self, number, words)
    }

    fn widen_line(&mut self, words: &[u8]) -> Result<bool, AllocError> {
        match TwoNumbers::of_words(*self.text.allocator(), words)? {
            Some((e, Last(f))) => {
                self.widen(e, f)?;
                Ok(true)
            }
            None => Ok(false),
        }
    }

    fn narrow_line(&mut self, words: &[u8]) -> Result<bool, AllocError> {
        match TwoNumbers::of_words(*self.text.allocator(), words)? {
            Some((e, Last(f))) => {
                self.narrow_to(e, f)?;
                Ok(true)
            }
            None => Ok(false),
        }
    }
}
