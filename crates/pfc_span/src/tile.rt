// Pieces of a file, cut at the ends of its blocks.
ghost use Rattle.std.specs.Prelude.{◌≡◌, ◌<◌, ◌≤◌, ◌^◌, ◌++◌, List, length, map, IfOk, OnOk};
ghost use Rattle.pfc_base.specs.declared.block.Part.{Part};
ghost use Rattle.pfc_span.specs.Tiling.{Tiles, TileEach, TileInTurn};

use pfc_base::{Memory, Part, Piece};
use std::alloc::Global;

/// Appends the parts of one piece, each beside the piece's place.
fn push_parts(
    placed: &mut Vec<(u32, Part)>,
    place: u32,
    piece: Piece,
    size: u64,
    k: u64,
) -> Result<(), Memory>
    requires size { size < 2 ^ 44 }
    requires least { 4096 ≤ k }
    requires most { k ≤ 16777216 }
    ensures { OnOk result ((parts : List Part) × (placed.new.items ≡ placed.old.items ++ map (λ part. (place, part)) parts) × Tiles size k piece parts) }
{
    let mut from = piece.off;
    let mut left = piece.len.min(size.saturating_sub(piece.off));
    if left > 0 {
        // Beside whole blocks there may be a part of one at either end.
        placed.reserve((left / k + 2) as usize)?;
    }
    while left > 0 {
        let start = from % k;
        let len = left.min(k - start);
        let part = Part {
            block: (from / k) as u32,
            from: start as u32,
            len: len as u32,
        };
        placed.push((place, part))?;
        from += len;
        left -= len;
    }
    Ok(())
}

/// The parts of these pieces of a file of `size` bytes in blocks of `k`, piece by piece and in the file's order,
/// each beside the place of its piece. What a piece has past the file's end gives no part. Blocks have 4096 bytes
/// at least, so that a file has no more of them than a `u32` can number.
pub fn parts(alloc: Global, pieces: &[Piece], size: u64, k: u64) -> Result<Vec<(u32, Part)>, Memory>
    requires size { size < 2 ^ 44 }
    requires least { 4096 ≤ k }
    requires most { k ≤ 16777216 }
    requires pieces { length pieces.now < 2 ^ 32 }
    ensures each { IfOk result (λ placed. TileEach size k pieces.now placed.items) }
    ensures turn { IfOk result (λ placed. TileInTurn size k pieces.now (map (λ x. x.1) placed.items)) }
{
    let mut placed = Vec::new(alloc);
    for (i, piece) in pieces.iter().enumerate() {
        push_parts(&mut placed, i as u32, *piece, size, k)?;
    }
    Ok(placed)
}

#[cfg(test)]
mod tests {
    use super::*;
    use std::test::Fail;

    #[test]
    fn cuts_at_the_ends_of_blocks_and_of_the_file(rt: HostRuntime) -> Result<(), Fail> {
        let pieces = [
            Piece {
                off: 4000,
                len: 200,
            },
            Piece {
                off: 9000,
                len: 5000,
            },
            Piece { off: 5, len: 0 },
            Piece {
                off: 10000,
                len: 10,
            },
            Piece {
                off: u64::MAX,
                len: u64::MAX,
            },
            Piece { off: 0, len: 4096 },
        ];
        let placed = parts(rt.alloc(), &pieces, 10000, 4096)?;
        let expected = [
            (
                0,
                Part {
                    block: 0,
                    from: 4000,
                    len: 96,
                },
            ),
            (
                0,
                Part {
                    block: 1,
                    from: 0,
                    len: 104,
                },
            ),
            (
                1,
                Part {
                    block: 2,
                    from: 808,
                    len: 1000,
                },
            ),
            (
                5,
                Part {
                    block: 0,
                    from: 0,
                    len: 4096,
                },
            ),
        ];
        assert_eq!(rt; placed.as_slice(), expected.as_slice());
        Ok(())
    }
}
