//! What calls of the lexer give. These are laws: each function is one, by its contract.
ghost use Rattle.blex.specs.Calls.{CallsGiveFirst};
ghost use Rattle.blex.specs.Places.{PlacesOfTokens};

/// So many calls of `next` from `Lexer::new` on, of which none failed, give so many tokens of the source, from the
/// first on; after the last one that comes again.
pub fn calls_give_the_first_tokens()
    ensures { CallsGiveFirst }
{}

/// The comments and tokens that stand in a source, each after the other, give its tokens.
pub fn pieces_give_the_tokens()
    ensures { PlacesOfTokens }
{}
