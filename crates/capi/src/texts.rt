// The C interface of shot lists as CIF texts.
ghost use Rattle.std.specs.Prelude.{◌≡◌};
ghost use Rattle.cif.specs.Calls.{cif_written, ReadSays};
ghost use Rattle.capi.specs.TextLent.{text_lent, shots_lent};

use super::refuse;

// How many bytes of the text of a shot list were written; or 21, 14.
#[unsafe(no_mangle)]
pub extern "C" fn pw_cif_write(list: &[u16], out: &mut [u8], written: &mut usize) -> u32
    ensures settled { text_lent result written.new out.new ≡ cif_written list.now out.old }
{
    *written = 0;
    match cif::write(list, out) {
        Ok(n) => {
            *written = n;
            0
        }
        Err(why) => u32::from(why),
    }
}

// How many shots a text has, with four numbers for each at the front of the list; or 22 and the offset of the first line at fault, 14.
#[unsafe(no_mangle)]
pub extern "C" fn pw_cif_read(
    text: &[u8],
    list: &mut [u16],
    shots: &mut usize,
    offset: &mut usize,
) -> u32
    ensures settled { ReadSays text.now list.old (shots_lent result shots.new offset.new list.new) }
{
    *shots = 0;
    *offset = 0;
    match cif::read(text, list) {
        Ok(n) => {
            *shots = n;
            0
        }
        Err(fault) => refuse(fault, offset),
    }
}
