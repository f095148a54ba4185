//! How `clap` splits the words of a call.
ghost use Rattle.std.specs.Prelude.{◌≡◌, false, map, IfOk};
ghost use Rattle.clap.specs.Words.{app_of, rule_of, shape_of};
ghost use Rattle.clap.specs.declared.builder.command.Command.TheViews.{out-Command as fields_of};
ghost use Rattle.a68_command.specs.Splitting.{bare_call, call_app, names_rule, operand_rule, valued_rule, verb_shape};
ghost use Rattle.a68_command.specs.Words as spec;

use a68_base::NoMemory;
use clap::{Arg, ArgAction};
use std::alloc::Global;

// The verbs.
fn verbs<'a>() -> [&'a str; 8]
    ensures { map (λ verb. verb.now) result ≡ spec.verbs }
{
    [
        "run", "check", "code", "make", "trace", "replay", "races", "list",
    ]
}

// The first operand, which is required.
fn operand<'a>(alloc: Global) -> Arg<'a>
    ensures rule { rule_of result ≡ operand_rule }
    ensures local { result.global ≡ false }
{
    Arg::new(alloc, "operand").required(true)
}

// An option with a value.
fn valued<'a>(alloc: Global, name: &'a str) -> Arg<'a>
    ensures rule { rule_of result ≡ valued_rule name.entry.now }
    ensures local { result.global ≡ false }
{
    Arg::new(alloc, name).long(name)
}

// The option that asks for names.
fn names<'a>(alloc: Global) -> Arg<'a>
    ensures rule { rule_of result ≡ names_rule }
    ensures local { result.global ≡ false }
{
    Arg::new(alloc, "names")
        .long("names")
        .action(ArgAction::SetTrue)
}

// A verb with its operands and options. All verbs have the same ones here: what each may have is looked at behind the split.
fn verb<'a>(alloc: Global, name: &'a str) -> Result<clap::Command<'a>, NoMemory>
    ensures shape { IfOk result (λ verb. shape_of verb ≡ verb_shape name.entry.now) }
    ensures local { IfOk result (λ verb. (fields_of verb).has_globals ≡ false) }
{
    let verb = clap::Command::new(alloc, name)
        .arg(operand(alloc))?
        .arg(Arg::new(alloc, "second"))?
        .arg(valued(alloc, "workers"))?
        .arg(valued(alloc, "fuel"))?
        .arg(valued(alloc, "input"))?
        .arg(names(alloc))?;
    Ok(verb)
}

// A call without a verb.
fn bare<'a>(alloc: Global) -> clap::Command<'a>
    ensures app { app_of result ≡ bare_call }
{
    clap::Command::new(alloc, "a68")
        .no_binary_name(true)
        .disable_help_flag(true)
        .disable_help_subcommand(true)
        .disable_version_flag(true)
        .subcommand_required(true)
}

/// The call: one verb, with no flag and no verb but those of the table.
pub fn call<'a>(alloc: Global) -> Result<clap::Command<'a>, NoMemory>
    ensures app { IfOk result (λ call. app_of call ≡ call_app) }
{
    let mut call = bare(alloc);
    for name in verbs() {
        let verb = verb(alloc, name)?;
        call = call.subcommand(verb)?;
    }
    Ok(call)
}
