//! What a declarer is made of, by its first symbol.
ghost use Rattle.std.specs.Prelude.{◌≡◌, ◌<◌, length, map};
ghost use Rattle.a68_declarers.specs.Declarers.{known_forms, form_at};
ghost use Rattle.a68_declarers.specs.Declarers as declarers;
ghost use Rattle.a68_declarers.specs.Actual as actual;

use a68_base::find;
use a68_modes::ModeId;
use a68_tree::{NodeId, Tree};

/// What a declarer is made of (4.6.1).
#[derive(Clone, Copy)]
pub enum DeclarerForm {
    /// A standard mode, by its number as it stands and without its FLEX.
    Standard {
        as_it_stands: ModeId,
        without_flex: ModeId,
    },
    /// REF and a declarer.
    Name,
    /// Bounds and a declarer, perhaps behind FLEX.
    Row {
        flex: bool,
    },
    /// STRUCT.
    Structure,
    /// UNION.
    Union,
    /// PROC.
    Procedure,
    /// A mode word.
    Word,
}

// The forms by the symbols that begin them.
#[tactic(auto, unfolding(crate::specs::Declarers::known_forms))]
fn forms() -> &'static [(&'static str, DeclarerForm)]
    ensures { map (λ row. (row.0.now, row.1)) result.now ≡ known_forms }
{
    &[
        (
            "INT",
            DeclarerForm::Standard {
                as_it_stands: 1,
                without_flex: 1,
            },
        ),
        (
            "BOOL",
            DeclarerForm::Standard {
                as_it_stands: 2,
                without_flex: 2,
            },
        ),
        (
            "CHAR",
            DeclarerForm::Standard {
                as_it_stands: 3,
                without_flex: 3,
            },
        ),
        (
            "BITS",
            DeclarerForm::Standard {
                as_it_stands: 4,
                without_flex: 4,
            },
        ),
        (
            "SEMA",
            DeclarerForm::Standard {
                as_it_stands: 5,
                without_flex: 5,
            },
        ),
        (
            "STRING",
            DeclarerForm::Standard {
                as_it_stands: 12,
                without_flex: 7,
            },
        ),
        (
            "LONG",
            DeclarerForm::Standard {
                as_it_stands: 13,
                without_flex: 13,
            },
        ),
        ("REF", DeclarerForm::Name),
        ("[", DeclarerForm::Row { flex: false }),
        ("FLEX", DeclarerForm::Row { flex: true }),
        ("STRUCT", DeclarerForm::Structure),
        ("UNION", DeclarerForm::Union),
        ("PROC", DeclarerForm::Procedure),
    ]
}

/// The form of a declarer.
pub fn form_of(tree: &Tree, declarer: NodeId) -> DeclarerForm
    requires { declarer < length tree.now.nodes }
    ensures { result ≡ form_at tree.now declarer }
{
    let spelling = tree.spelling(tree.node(declarer).name);
    match find(forms(), spelling) {
        Some(form) => form,
        None => DeclarerForm::Word,
    }
}

/// Is it a mode word?
pub fn is_word(form: DeclarerForm) -> bool
    ensures { result ≡ declarers.is_word form }
{
    matches!(form, DeclarerForm::Word)
}

/// Are declarers within it actual, where it is?
pub fn hands_on(form: DeclarerForm) -> bool
    ensures { result ≡ actual.hands_on form }
{
    matches!(form, DeclarerForm::Row { .. } | DeclarerForm::Structure)
}
