//! Lines of text: words or columns, written at the end of what there is.
ghost use Rattle.std.specs.Prelude.{◌≡◌, ◌∷◌, ◌++◌, map, flat_map, IfOk, OnOk};
ghost use Rattle.outside.specs.Outputs.{line};
ghost use Rattle.vo_commands.specs.Lines.{with_separator, words_line, columns_line};
ghost use Rattle.vo_commands.specs.Words.{word_text};

use crate::piece::{Piece, Word};
use std::alloc::{AllocError, Global};

/// The line of these words alone.
pub fn words_line(alloc: Global, words: &[Word<'_>]) -> Result<Vec<u8>, AllocError>
    ensures { IfOk result (λ line. line.items ≡ words_line (map word_text words.now)) }
{
    let mut line = Vec::new(alloc);
    push_words(alloc, &mut line, words)?;
    Ok(line)
}

/// A line of words, with one space between each two.
pub fn push_words(alloc: Global, out: &mut Vec<u8>, words: &[Word<'_>]) -> Result<(), AllocError>
    ensures { OnOk result (out.new.items ≡ out.old.items ++ words_line (map word_text words.now)) }
{
    push_line(alloc, out, words, b' ')
}

/// A line of columns, with a comma between each two.
pub fn push_columns<P: Piece>(
    alloc: Global,
    out: &mut Vec<u8>,
    columns: &[P],
) -> Result<(), AllocError>
    ensures { OnOk result (out.new.items ≡ out.old.items
        ++ columns_line (map P.piece_text columns.now)) }
{
    push_line(alloc, out, columns, b',')
}

fn push_line<P: Piece>(
    alloc: Global,
    out: &mut Vec<u8>,
    pieces: &[P],
    separator: u8,
) -> Result<(), AllocError>
    ensures { OnOk result (out.new.items ≡ out.old.items
        ++ line (with_separator separator (map P.piece_text pieces.now))) }
{
    if let Some((first, others)) = pieces.split_first() {
        first.push_to(alloc, out)?;
        push_others(alloc, out, others, separator)?;
    }
    out.push(b'\n')?;
    Ok(())
}

fn push_others<P: Piece>(
    alloc: Global,
    out: &mut Vec<u8>,
    others: &[P],
    separator: u8,
) -> Result<(), AllocError>
    ensures { OnOk result (out.new.items ≡ out.old.items
        ++ flat_map (λ piece. separator ∷ piece) (map P.piece_text others.now)) }
{
    for piece in others {
        out.push(separator)?;
        piece.push_to(alloc, out)?;
    }
    Ok(())
}
