//! The operands of an instruction, and the values that it takes and leaves.
ghost use Rattle.std.specs.List.{list_all};
ghost use Rattle.std.specs.Prelude.{◌≡◌, ◌≤◌, ◌&&◌, ◌^◌, nat_lt, suc, false, MatchOption};
ghost use Rattle.a68_code.specs.Flow.{is_slice, operands_of, takes, leaves, trim_values, values_of_trims};
ghost use Rattle.a68_code.specs.Operands.{is_well_made, members_of, serves_each};

use crate::{Does, Places};
use a68_layout::TrimForm;
use a68_modes::{ModeId, Modes, Shape};

/// How many values an operator is on, by its row in the table of operators.
#[inline(always)]
pub fn operands_of(row: u32) -> u32
    ensures { result ≡ operands_of row }
{
    if row <= 25 { 2 } else { 1 }
}

// How many values a slice that is written so has in a dimension.
fn trim_values(form: TrimForm) -> usize
    ensures { result ≡ trim_values form }
{
    match form {
        TrimForm::Subscript => 1,
        TrimForm::Trimmer { lower, upper, at } => {
            usize::from(lower) + usize::from(upper) + usize::from(at)
        }
    }
}

/// How many values a slice that is written so has in all; none where no usize holds that.
pub fn values_of_trims(forms: &[TrimForm]) -> Option<usize>
    ensures { MatchOption result (2 ^ 64 ≤ values_of_trims forms.now) (λ units. units ≡ values_of_trims forms.now) }
{
    let mut units: usize = 0;
    for form in forms {
        units = units.checked_add(trim_values(*form))?;
    }
    Some(units)
}

/// How many values a slice that is written so takes; none where no usize holds that.
pub fn slice_takes(forms: &[TrimForm]) -> Option<usize>
    ensures { MatchOption result (2 ^ 64 ≤ suc (values_of_trims forms.now)) (λ count. count ≡ suc (values_of_trims forms.now)) }
{
    let units = values_of_trims(forms)?;
    units.checked_add(1)
}

// The members of a union; none of another mode.
fn members_of(union: &Shape) -> &[ModeId]
    ensures { result.now ≡ members_of union.now }
{
    match union {
        Shape::Union(members) => &members.items,
        _ => &[],
    }
}

// Whether there is a place for each member of a union and one more for none, and it is said of each what is left there.
fn serves_each(union: &Shape, places: &Places, whole: &Places) -> bool
    ensures { result ≡ serves_each union.now places.now whole.now }
{
    let members = members_of(union).len();
    places.items.len() == members + 1 && whole.items.len() == members
}

// Whether a Member of this union may have these places, among so many instructions, and say this of its members.
fn fits_members(union: &Shape, places: &Places, whole: &Places, count: usize) -> bool
    ensures { result ≡ (serves_each union.now places.now whole.now && list_all (λ to. nat_lt to count) places.now) }
{
    serves_each(union, places, whole) && places.are_below(count)
}

impl Does {
    /// Whether the operands are such as the instruction may have, in a list of so many instructions, of
    /// so many routine texts.
    pub(crate) fn is_well_made(&self, modes: &Modes, texts: usize, count: usize) -> bool
        ensures { result ≡ is_well_made modes.now texts count self.now }
    {
        match self {
            Does::Routine { text, .. } => (*text as usize) < texts,
            Does::Leave(one) | Does::Same(one) => *one <= 1,
            Does::Make { mode, .. } | Does::Heap { mode, .. } | Does::Display { mode, .. } => {
                *mode < modes.len()
            }
            Does::Skip(mode) | Does::Deref(mode) | Does::Store(mode) => *mode < modes.len(),
            Does::Vacuum(mode) | Does::RowUp(mode) | Does::RowUpName(mode) => *mode < modes.len(),
            Does::Slice(forms) => !forms.items.is_empty(),
            Does::Compose(fields) => *fields > 0,
            Does::Select { mode, .. } => *mode < modes.len(),
            Does::Apply(row) => 1 <= *row && *row <= 40,
            Does::Jump(to) | Does::Unless(to) | Does::Step(to) | Does::Advance(to) => (*to as usize)
                < count,
            Does::Goto { to, .. } => (*to as usize) < count,
            Does::Case(places) => places.are_inside(count),
            Does::Member {
                mode,
                places,
                whole,
            } => *mode < modes.len() && fits_members(modes.shape(*mode), places, whole, count),
            Does::Fork(entrances) => entrances.are_units(count),
            _ => true,
        }
    }

    /// How many values the instruction takes from the stack; none where no usize holds that.
    pub fn takes(&self) -> Option<usize>
        ensures { MatchOption result (2 ^ 64 ≤ takes self.now) (λ count. count ≡ takes self.now) }
    {
        match self {
            Does::Slice(forms) => slice_takes(&forms.items),
            does => Some(does.takes_few()),
        }
    }

    // How many values an instruction that is no Slice takes.
    fn takes_few(&self) -> usize
        requires { is_slice self.now ≡ false }
        ensures { result ≡ takes self.now }
    {
        match self {
            Does::Counter => 3,
            Does::Store(_) | Does::Same(_) | Does::Whole => 2,
            Does::Apply(row) => operands_of(*row) as usize,
            Does::Bind(_) | Does::Deref(_) | Does::Unite(_) | Does::Drop => 1,
            Does::RowUp(_) | Does::RowUpName(_) | Does::Widen => 1,
            Does::Select { .. } | Does::Member { .. } => 1,
            Does::Unless(_) | Does::Case(_) | Does::Index | Does::Step(_) => 1,
            Does::Advance(_) | Does::Forget => 1,
            Does::Leave(count) | Does::Print(count) | Does::Compose(count) => *count as usize,
            Does::Make { bounds, .. } | Does::Heap { bounds, .. } => *bounds as usize,
            Does::Display { count, .. } => *count as usize,
            Does::Call { count, .. } => *count as usize + 1,
            Does::Goto { height, .. } => *height as usize,
            _ => 0,
        }
    }

    /// How many values it leaves there.
    pub fn leaves(&self, modes: &Modes) -> usize
        ensures { result ≡ leaves modes.now self.now }
    {
        match self {
            Does::Leave(kept) => *kept as usize,
            Does::Index => 2,
            Does::Skip(mode) => usize::from(!modes.is_void(*mode)),
            Does::Call { gives, .. } => usize::from(*gives),
            Does::Goto { height, gives, .. } => *height as usize + usize::from(*gives),
            Does::Apply(row) => usize::from(*row != 35 && *row != 36),
            Does::Enter(_) | Does::Bind(_) | Does::Drop | Does::Print(_) | Does::Jump(_) => 0,
            Does::Unless(_) | Does::Case(_) | Does::Turn | Does::Forget => 0,
            Does::Return | Does::Fork(_) | Does::Close | Does::End => 0,
            _ => 1,
        }
    }
}
