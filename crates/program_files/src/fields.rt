// Tables and ranges at their places in a file.
ghost use Rattle.std.specs.Prelude.{◌≡◌, ◌+◌, ◌*◌, ◌<◌, ◌≤◌, length};
ghost use Rattle.program_files.specs.Fields.{part, rows};

// The rows of a table, of N bytes each.
#[tactic(auto, using(crate::proofs::Tables::rows_within))]
pub(crate) fn rows_at<const N: usize>(file: &[u8], place: usize, n: usize) -> &[[u8; N]]
    requires size { 0 < N }
    requires within { place + N * n ≤ length file.now }
    ensures { result.now ≡ rows N n place file.now }
{
    let (_, rest) = file.split_at(place);
    let (all, _) = rest.as_chunks::<N>();
    &all[..n]
}

// The bytes of a range. One of no bytes may lie anywhere.
pub(crate) fn part_of(file: &[u8], offset: usize, size: usize) -> &[u8]
    requires { 0 < size → offset + size ≤ length file.now }
    ensures { result.now ≡ part file.now offset size }
{
    if size == 0 {
        return &[];
    }
    let (_, rest) = file.split_at(offset);
    let (part, _) = rest.split_at(size);
    part
}
