// The checksums alone, for the benchmark (rust/benches/speed).
#![tactic(auto)]

ghost use Rattle.std.specs.Prelude.{◌≡◌, ◌+◌, ◌*◌};
ghost use Rattle.checksum.specs.Crc.{crc_of};
ghost use Rattle.checksum.specs.Fletcher.{fletcher_of};
ghost use Rattle.checksum.specs.Xor.{xor_of};

#[unsafe(no_mangle)]
pub extern "C" fn checksum_crc32(s: &[u8]) -> u32
    ensures { result ≡ crc_of s.now }
{
    checksum_slicing::crc32(s)
}

// The two sums as one number: the plain sum, and 256 times the weighted one.
#[unsafe(no_mangle)]
pub extern "C" fn checksum_fletcher(s: &[u8]) -> u32
    ensures { result ≡ (fletcher_of s.now).plain + 256 * (fletcher_of s.now).weighted }
{
    let sums = checksum::fletcher16(s);
    u32::from(sums.plain) + 256 * u32::from(sums.weighted)
}

#[unsafe(no_mangle)]
pub extern "C" fn checksum_xor(s: &[u8]) -> u8
    ensures { result ≡ xor_of s.now }
{
    checksum::xor8(s)
}
