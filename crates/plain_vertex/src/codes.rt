// Which codes of a surface format an element can have, as bits: the table of 512 entries would be written out for each capture.
ghost use Rattle.std.specs.Prelude.{◌≡◌, not, ◌<◌, eqb};
ghost use Rattle.rules.specs.Formats.{format_bits};
ghost use Rattle.plain_vertex.specs.Codes.{known_in};

// The codes with an entry above 0 in SURFACE_FORMAT, 64 to a word, the lowest code in bit 0.
fn format_word(n: u32) -> u64
    requires { n < 8 }
    ensures { result ≡ known_in n }
{
    match n {
        0 => 0x0000_0003_0000_01FF,
        1 => 0x0000_0000_0001_007F,
        2 => 0x0000_0003_007F_FFFF,
        3 => 0x03FF_7FFF_E7CF_FFBF,
        4 => 0x0000_00FC_FFFF_FFFF,
        5 => 0x0000_0000_003D_FFFF,
        6 => 0x3FFF_0100_F9F8_4032,
        7 => 0x0000_0000_0000_0300,
        _ => 0,
    }
}

// "format .. with an entry above 0 in SURFACE_FORMAT".
pub fn known_format(code: u32) -> bool
    requires { code < 512 }
    ensures { result ≡ not (eqb (format_bits code) 0) }
{
    (format_word(code / 64) >> (code % 64)) & 1 == 1
}
