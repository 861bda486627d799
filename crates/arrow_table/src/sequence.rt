//! The run of a list of commands, one after the other, on one table or on two.
ghost use Rattle.std.specs.Prelude.{◌<◌, ◌≡◌, ◌≤◌, length, take, vec_capacity, vec_len};
ghost use Rattle.arrow_model.specs.Run.{RunAppends};
ghost use Rattle.arrow_model.specs.declared.reply.Reply.{Reply};

use crate::Reply;
use arrow_types::native_type::NativeType;
use std::alloc::Global;

/// A state that commands change.
pub(crate) trait Executor<T: NativeType> {
    /// The type of commands.
    type Command;

    /// What a command does to the state, and its reply.
    ghost steps_to: { Self → Self.Command → Reply T → Self → Type 0 };

    /// Runs a command and returns its reply, which is allocated by `alloc`.
    fn step(&mut self, alloc: Global, command: &Self::Command) -> Reply<T>
        ensures { steps_to self.old command.now result self.new };
}

/// Runs commands in order, appends a reply for each, and returns how many were run. It stops early only if the list of
/// replies is full and cannot grow, and never shrinks that list.
pub(crate) fn run_all<T: NativeType, S: Executor<T>>(
    state: &mut S,
    commands: &[S::Command],
    replies: &mut Vec<Reply<T>>,
) -> usize
    ensures count { result ≤ length commands.now }
    ensures run { RunAppends S.steps_to state.old (take result commands.now) replies.old.items replies.new.items
        state.new }
    ensures full { result < length commands.now → vec_len replies.new ≡ vec_capacity replies.new }
    ensures room { vec_capacity replies.old ≤ vec_capacity replies.new }
{
    let alloc = *replies.allocator();
    let mut done = 0;
    for command in commands {
        let Ok(()) = replies.reserve(1) else {
            return done;
        };
        let reply = state.step(alloc, command);
        replies.push_reserved(reply);
        done += 1;
    }
    done
}
