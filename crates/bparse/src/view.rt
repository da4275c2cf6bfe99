//! What was made of a definition, as it is written.
ghost use Rattle.std.specs.Prelude.{◌≡◌};
ghost use Rattle.blang.specs.Text.{definition_of};
ghost use Rattle.bemit.specs.Effects.{code_with};
ghost use Rattle.bemit.specs.Views.{IfMade};
ghost use Rattle.blang.specs.Trees.{Definition};
ghost use Rattle.bread.specs.Headers.{Heads};
ghost use Rattle.bparse.specs.Sizes.{IsSmall};

use bemit::Draft;
use blang::View;
use bread::{DefinitionHead, HeadKind};

/// The definition that begins so.
pub(crate) fn view<'a>(header: &DefinitionHead, draft: &'a Draft) -> View<'a>
    ensures { IfMade draft.now (λ s m. (tree : Definition) → Heads header.now tree → IsSmall tree → definition_of result ≡ code_with tree s.frame m) }
{
    let name = header.name;
    match header.kind {
        HeadKind::Simple => View::Simple {
            name,
            values: draft.values(),
            strings: draft.strings(),
        },
        HeadKind::Vector { words } => View::Vector {
            name,
            words,
            values: draft.values(),
            strings: draft.strings(),
        },
        HeadKind::Function { parameters } => View::Function {
            name,
            parameters,
            frame: draft.frame(),
            targets: draft.targets(),
            strings: draft.strings(),
            code: draft.code(),
        },
    }
}
