//! The names of the instructions.
ghost use Rattle.std.specs.Prelude.{◌≡◌};
ghost use Rattle.a68_report.specs.Names.{name_of};

use a68_code::Does;

/// Finds the name of an instruction.
pub fn name_of(does: &Does) -> &'static str
    ensures { result.now ≡ name_of does.now }
{
    match does {
        Does::Push(_) => "Push",
        Does::Skip(_) => "Skip",
        Does::Nil => "Nil",
        Does::Routine { .. } => "Routine",
        Does::Tag { .. } => "Tag",
        Does::Enter(_) => "Enter",
        Does::Leave(_) => "Leave",
        Does::Bind(_) => "Bind",
        Does::Make { .. } => "Make",
        Does::Heap { .. } => "Heap",
        Does::Deref(_) => "Deref",
        Does::Store(_) => "Store",
        Does::Apply(_) => "Apply",
        Does::Same(_) => "Same",
        Does::Slice(_) => "Slice",
        Does::Display { .. } => "Display",
        Does::Vacuum(_) => "Vacuum",
        Does::Compose(_) => "Compose",
        Does::Select { .. } => "Select",
        Does::Unite(_) => "Unite",
        Does::RowUp(_) => "RowUp",
        Does::RowUpName(_) => "RowUpName",
        Does::Widen => "Widen",
        Does::Drop => "Drop",
        Does::Print(_) => "Print",
        Does::Whole => "Whole",
        Does::Call { .. } => "Call",
        Does::Return => "Return",
        Does::Jump(_) => "Jump",
        Does::Goto { .. } => "Goto",
        Does::Unless(_) => "Unless",
        Does::Case(_) => "Case",
        Does::Member { .. } => "Member",
        Does::Counter => "Counter",
        Does::Index => "Index",
        Does::Step(_) => "Step",
        Does::Turn => "Turn",
        Does::Advance(_) => "Advance",
        Does::Forget => "Forget",
        Does::Fork(_) => "Fork",
        Does::Close => "Close",
        Does::End => "End",
    }
}
