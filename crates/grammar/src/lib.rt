//! A small language of grammar rules, and the theorem that reading one token ahead is exact for
//! them.
//!
//! A rule is a term (`specs/Rule`). It has two meanings: the texts that it spells, with their
//! values (`specs/Text`), and how it is read from the left (`specs/Reading`). For a rule that
//! passes the tests of `specs/Checks` the two agree, with the place and the cause of each fault.
#![tactic(auto)]

ghost use Rattle.std.specs.Prelude.{◌≡◌, ℕ, List, [], true, Ok};
ghost use Rattle.std.specs.List.{AllByRecursion};
ghost use Rattle.grammar.specs.Language.{Language, IsLanguage};
ghost use Rattle.grammar.specs.Rule.{Rule, Grammar};
ghost use Rattle.grammar.specs.Text.{IsText, Judges};
ghost use Rattle.grammar.specs.Checks.{is_good};
ghost use Rattle.grammar.specs.Reading.{parse};

/// Why reading stops at a token.
#[derive(Clone, Copy, Debug, PartialEq, Eq, Drop)]
pub enum ParseFault {
    /// No text has this token here.
    Syntax,
    /// The token opens one level too many.
    Nesting,
    /// The token begins one part too many.
    TooMany,
}

/// A rule that one token of look-ahead is enough for.
pub trait Predictive {
    ghost language: { Language };

    ghost grammar: { Grammar language };

    ghost Value: { Type 0 };

    ghost start: { Rule language Value };

    ghost is_language: { IsLanguage language };

    ghost good: { is_good grammar start ≡ true };
}

/// Reading is exact: of any tokens it gives the value that they spell, or the one fault, and it
/// refuses nothing that is spelled.
pub fn reads_exactly<G: Predictive>()
    ensures judged { (levels : ℕ) (ts : List G.language.Token)
        → AllByRecursion G.language.IsToken ts
        → Judges G.grammar levels G.start ts (parse G.grammar levels G.start ts).0
        (parse G.grammar levels G.start ts).1 }
    ensures complete { (levels : ℕ) (ts : List G.language.Token) (v : G.Value)
        → IsText G.grammar true levels G.start ts v
        → parse G.grammar levels G.start ts ≡ (Ok v, []) }
{}

#[cfg(test)]
mod tests;
