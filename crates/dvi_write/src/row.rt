//! What a file says of a font (DVI description, "fnt_def").
use items::Text;
use micro_num::Sp;

/// What a DVI file says of a font: its name, the checksum of its TFM file, its size and its design
/// size.
#[derive(Drop)]
pub struct FontRow {
    pub name: Text,
    pub checksum: u32,
    pub size: Sp,
    pub design: Sp,
}
