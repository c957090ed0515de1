// A number is written to the start of a buffer that the caller lends; what stands behind it is left as it was.
ghost use Rattle.std.specs.Prelude.{◌≡◌, length};
ghost use Rattle.groups.specs.Groups.{number_bytes, number_written};

// How many bytes a number takes: one to each seven bits.
#[tactic(auto, using(std::proofs::lemmas::Bool::Decides::nat_tests), unfolding(crate::specs::Groups::number_bytes, crate::specs::Groups::groups_of))]
pub fn number_len(x: u32) -> usize
    ensures { result ≡ length (number_bytes x) }
{
    match x {
        0..=0x7f => 1,
        0x80..=0x3fff => 2,
        0x4000..=0x1f_ffff => 3,
        0x20_0000..=0xfff_ffff => 4,
        _ => 5,
    }
}

// A number's bytes at the start of the buffer, and how many they are; 0 where they do not fit, and then nothing is written (clause 3.5).
#[tactic(auto, using(crate::proofs::Writings::writing_steps))]
pub fn write_number(x: u32, buffer: &mut [u8]) -> usize
    ensures { record { wrote = result; buffer = buffer.new } ≡ number_written x buffer.old }
{
    let len = number_len(x);
    if buffer.len() < len {
        return 0;
    }
    let last = len - 1;
    let mut rest = x;
    for k in 0..last {
        buffer[k] = (rest % 128 + 128) as u8;
        rest /= 128;
    }
    buffer[last] = rest as u8;
    len
}
