// Texts in a lent buffer: each is put at its start, and what stands behind is left as it was. The answer is how many bytes were put: without
// a heap a text that grows is a buffer with a length beside it.
ghost use Rattle.std.specs.Prelude.{◌≡◌, ◌≤◌, ◌+◌, length};
ghost use Rattle.lists.specs.Overwriting.{written_over};
ghost use Rattle.lines.specs.Text.{decimal, spaced};

#[tactic(auto, unfolding(lists::specs::Overwriting::written_over))]
pub(crate) fn put(text: &[u8], out: &mut [u8]) -> usize
    requires { length text.now ≤ length out.old }
    ensures wrote { result ≡ length text.now }
    ensures text { out.new ≡ written_over text.now out.old }
{
    out[..text.len()].copy_from_slice(text);
    text.len()
}

// A number in decimal.
#[tactic(auto, using(crate::proofs::Digits::decimal_put, lists::proofs::Putting::put_named))]
pub(crate) fn put_number(n: u64, out: &mut [u8]) -> usize
    requires { length (decimal n) ≤ length out.old }
    ensures wrote { result ≡ length (decimal n) }
    ensures text { out.new ≡ written_over (decimal n) out.old }
{
    let mut digits = [0u8; 20];
    let k = io::decimal(n, &mut digits);
    put(&digits[..k], out)
}

// A number as an item behind another.
#[tactic(auto, using(lists::proofs::Overwriting::length_over), unfolding(crate::specs::Text::spaced, lists::specs::Overwriting::written_over))]
pub(crate) fn put_item(n: u64, out: &mut [u8]) -> usize
    requires { length (spaced (decimal n)) ≤ length out.old }
    ensures wrote { result ≡ length (spaced (decimal n)) }
    ensures text { out.new ≡ written_over (spaced (decimal n)) out.old }
{
    out[0] = b' ';
    1 + put_number(n, &mut out[1..])
}
