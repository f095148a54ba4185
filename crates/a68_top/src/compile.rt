//! A text made into a program that can run.
ghost use Rattle.std.specs.Prelude.{◌≡◌, ◌<◌, ◌≤◌, ◌^◌, List, length, map, IfOk, IfErr};
ghost use Rattle.a68_ranges.specs.Twice.{StopsBy};
ghost use Rattle.a68_code.specs.Valid.{IsValid};
ghost use Rattle.a68_top.specs.Compiles.{IsTreeOf, IsProgramOf, Compiles, RefusedAs};

use crate::finish::Made;
use crate::reading::read_tree;
use a68_annot::Annotated;
use a68_base::Stop;
use a68_check::annotate;
use a68_gen::generate;
use std::alloc::Global;

/// The program of a text and its code, or the rule that the text breaks.
pub fn compile(alloc: Global, text: &[u8]) -> Result<Made, Stop>
    requires { length text.now < 2 ^ 32 }
    ensures ok { IfOk result (λ made. Compiles text.now made) }
    ensures valid { IfOk result (λ made. IsValid made.code) }
    ensures short { IfOk result (λ made. length made.code.list < 2 ^ 32) }
    ensures refused { IfErr result (λ why. StopsBy (RefusedAs text.now) why) }
{
    let (found, tree) = read_tree(alloc, text)?;
    drop(found);
    let program = annotate(alloc, tree)?;
    let code = generate(alloc, &program)?;
    Ok(Made { program, code })
}
