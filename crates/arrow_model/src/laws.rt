//! Laws of tables, stated over their definitions for all values. Each is the contract of a function that does nothing.
ghost use Rattle.std.specs.Prelude.{ℤ, All, List, map};
ghost use Rattle.arrow_types.specs.declared.primitive_type.PrimitiveType.{PrimitiveType};
ghost use Rattle.arrow_model.specs.Both.{IsBothRequest, IsBothStep, both_request};
ghost use Rattle.arrow_model.specs.Value.{Types};
ghost use Rattle.arrow_model.specs.Request.{IsRequest, as_request};
ghost use Rattle.arrow_model.specs.Run.{IsRun, Runs};
ghost use Rattle.arrow_model.specs.Step.{IsStep};
ghost use Rattle.arrow_model.specs.Values.{HasValues, HaveValues, Preserves};
ghost use Rattle.arrow_model.specs.declared.command.BothCommand.{BothCommand};
ghost use Rattle.arrow_model.specs.declared.command.Command.{Command};

/// If each entry is empty or holds a valid value, the same is true after a command, and after a run of commands.
pub fn values_stay<T>()
    ensures step { (c : Types T) → Preserves (HasValues c) IsRequest (IsStep c) }
    ensures run { (c : Types T) → Preserves (HasValues c) (All IsRequest) (IsRun c) }
{}

/// The same of two tables, one of each width of offsets.
pub fn values_stay_in_both<T>()
    ensures step { (zero : T) (p : PrimitiveType)
        → Preserves (HaveValues zero p) IsBothRequest (IsBothStep zero p) }
    ensures run { (zero : T) (p : PrimitiveType)
        → Preserves (HaveValues zero p) (All IsBothRequest) (Runs (IsBothStep zero p)) }
{}

/// Every command is a request: its kinds exist and its text is UTF-8, as every `String` is. So [`values_stay`] holds of
/// all commands.
pub fn commands_are_requests<T, O>()
    ensures one { (number : O → ℤ) (command : Command T O) → IsRequest (as_request number command) }
    ensures all { (number : O → ℤ) (commands : List (Command T O)) → All IsRequest (map (as_request number) commands) }
{}

/// The same of commands on two tables, and [`values_stay_in_both`].
pub fn both_commands_are_requests<T>()
    ensures one { (command : BothCommand T) → IsBothRequest (both_request command) }
    ensures all { (commands : List (BothCommand T)) → All IsBothRequest (map both_request commands) }
{}
