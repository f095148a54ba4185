//! The listing of a code.
ghost use Rattle.std.specs.Prelude.{◌≡◌, ◌++◌, IfOk, OnOk};
ghost use Rattle.a68_code.specs.declared.does.Does.TheVariants.{Goto, Member, Routine, Slice};
ghost use Rattle.a68_layout.specs.declared.types.TrimForm.TheVariants as form;
ghost use Rattle.a68_report.specs.Listing as spec;
ghost use Rattle.a68_report.specs.Put.{behind, number};

use crate::constant::put_constant;
use crate::name::name_of;
use crate::put::{put, put_behind, put_digits, put_list, put_number};
use a68_base::{NoMemory, Text};
use a68_code::{Code, Does, Instr, Places};
use a68_layout::{TrimForm, TrimForms};
use std::alloc::Global;

// Puts two numbers.
fn put_pair(text: &mut Text, one: u32, other: u32) -> Result<(), NoMemory>
    ensures { OnOk result (text.new ≡ text.old ++ (number one ++ number other)) }
{
    put_number(text, u64::from(one))?;
    put_number(text, u64::from(other))
}

// Puts the number of a routine text, and how many frames outwards its scope is found.
fn put_routine(text: &mut Text, number: u32, distance: Option<u32>) -> Result<(), NoMemory>
    ensures { OnOk result (text.new ≡ text.old ++ spec.operands (Routine number distance)) }
{
    put_number(text, u64::from(number))?;
    match distance {
        None => put_behind(text, b"-1"),
        Some(hops) => put_number(text, u64::from(hops)),
    }
}

// Puts a byte, where there is such a unit.
fn put_letter(text: &mut Text, is_there: bool, byte: u8) -> Result<(), NoMemory>
    ensures { OnOk result (text.new ≡ text.old ++ spec.letter is_there byte) }
{
    if is_there {
        put(text, &[byte])?;
    }
    Ok(())
}

// Puts the units that a trimmer has.
fn put_trimmer(text: &mut Text, lower: bool, upper: bool, at: bool) -> Result<(), NoMemory>
    ensures { OnOk result (text.new ≡ text.old ++ behind (spec.form_text (form.Trimmer lower upper at))) }
{
    put_behind(text, b"T")?;
    put_letter(text, lower, b'L')?;
    put_letter(text, upper, b'U')?;
    put_letter(text, at, b'A')
}

// Puts how a slice is written in a dimension.
fn put_form(text: &mut Text, form: TrimForm) -> Result<(), NoMemory>
    ensures { OnOk result (text.new ≡ text.old ++ behind (spec.form_text form)) }
{
    match form {
        TrimForm::Subscript => put_behind(text, b"I"),
        TrimForm::Trimmer { lower, upper, at } => put_trimmer(text, lower, upper, at),
    }
}

// Puts how a slice is written.
fn put_forms(text: &mut Text, forms: &[TrimForm]) -> Result<(), NoMemory>
    ensures { OnOk result (text.new ≡ text.old ++ spec.forms_text forms.now) }
{
    for form in forms {
        put_form(text, *form)?;
    }
    Ok(())
}

// Puts the operands of a slice.
fn put_slice(text: &mut Text, forms: &TrimForms) -> Result<(), NoMemory>
    ensures { OnOk result (text.new ≡ text.old ++ spec.operands (Slice forms.now)) }
{
    put_number(text, forms.items.len() as u64)?;
    put_forms(text, &forms.items)
}

// Puts a mode and two lists.
fn put_member(text: &mut Text, mode: u32, places: &Places, whole: &Places) -> Result<(), NoMemory>
    ensures { OnOk result (text.new ≡ text.old ++ spec.operands (Member mode places.now whole.now)) }
{
    put_number(text, u64::from(mode))?;
    put_list(text, &places.items)?;
    put_list(text, &whole.items)
}

// Puts the operands of a jump to a label.
fn put_goto(text: &mut Text, to: u32, frames: u32, height: u32, gives: bool) -> Result<(), NoMemory>
    ensures { OnOk result (text.new ≡ text.old ++ spec.operands (Goto to frames height gives)) }
{
    put_pair(text, to, frames)?;
    put_pair(text, height, u32::from(gives))
}

// Puts the operands of an instruction.
fn put_operands(text: &mut Text, does: &Does) -> Result<(), NoMemory>
    ensures { OnOk result (text.new ≡ text.old ++ spec.operands does.now) }
{
    match does {
        Does::Push(value) => put_constant(text, value),
        Does::Routine {
            text: number,
            distance,
        } => put_routine(text, *number, *distance),
        Does::Call { count, gives } => put_pair(text, *count, u32::from(*gives)),
        Does::Goto {
            to,
            frames,
            height,
            gives,
        } => put_goto(text, *to, *frames, *height, *gives),
        Does::Tag {
            hops: one,
            slot: other,
        }
        | Does::Make {
            mode: one,
            bounds: other,
        }
        | Does::Heap {
            mode: one,
            bounds: other,
        }
        | Does::Display {
            count: one,
            mode: other,
        }
        | Does::Select {
            mode: one,
            field: other,
        } => put_pair(text, *one, *other),
        Does::Skip(number)
        | Does::Enter(number)
        | Does::Leave(number)
        | Does::Bind(number)
        | Does::Deref(number)
        | Does::Store(number)
        | Does::Apply(number)
        | Does::Same(number)
        | Does::Vacuum(number)
        | Does::Compose(number)
        | Does::Unite(number)
        | Does::RowUp(number)
        | Does::RowUpName(number)
        | Does::Print(number)
        | Does::Jump(number)
        | Does::Unless(number)
        | Does::Step(number)
        | Does::Advance(number) => put_number(text, u64::from(*number)),
        Does::Slice(forms) => put_slice(text, forms),
        Does::Case(places) => put_list(text, &places.items),
        Does::Fork(entrances) => put_list(text, &entrances.items),
        Does::Member {
            mode,
            places,
            whole,
        } => put_member(text, *mode, places, whole),
        Does::Nil
        | Does::Widen
        | Does::Drop
        | Does::Whole
        | Does::Counter
        | Does::Index
        | Does::Turn
        | Does::Forget
        | Does::Return
        | Does::Close
        | Does::End => Ok(()),
    }
}

// Puts the line of an instruction.
fn put_line(text: &mut Text, index: usize, does: &Does) -> Result<(), NoMemory>
    ensures { OnOk result (text.new ≡ text.old ++ spec.line index does.now) }
{
    put_digits(text, index as u64)?;
    put_behind(text, name_of(does).as_bytes())?;
    put_operands(text, does)?;
    put(text, b"\n")
}

// Puts the lines of instructions, from index 0 on.
fn put_lines(text: &mut Text, list: &[Instr]) -> Result<(), NoMemory>
    ensures { OnOk result (text.new ≡ text.old ++ spec.lines 0 list.now) }
{
    for index in 0..list.len() {
        put_line(text, index, &list[index].does)?;
    }
    Ok(())
}

/// Writes the listing of a code (own): for each instruction its index, its name and its operands, with one blank between,
/// and a line feed.
///
/// Numbers are decimal; a mode is its number, and a list its length and then its items. A constant of INT or BITS is its
/// number, of BOOL `T` or `F`, of CHAR the number of its byte, of a row of CHAR the length and the numbers of its bytes,
/// and of the hidden mode of layout `newline` or `space`. A form of a slice is `I` for a subscript, and `T` for a trimmer,
/// followed by those of `L`, `U` and `A` (lower, upper, AT) that are there.
pub fn code_text(alloc: Global, code: &Code) -> Result<Text, NoMemory>
    ensures { IfOk result (λ text. text ≡ spec.code_text code.now) }
{
    let mut text = Text {
        items: Vec::new(alloc),
    };
    match put_lines(&mut text, &code.list.items) {
        Ok(()) => Ok(text),
        Err(error) => {
            drop(text);
            Err(error)
        }
    }
}
