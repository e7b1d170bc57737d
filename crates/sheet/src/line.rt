use rules::Call;

// The fabrics that a sheet can ask for.
#[derive(Clone, Copy)]
pub enum FabricName {
    Ring,
    Frames,
    Staged,
}

// The second line of a sheet: how many shims and lines the board has, and over which fabric it stands.
#[derive(Clone, Copy)]
pub struct Board {
    pub shims: u32,
    pub lines: u32,
    pub fabric: FabricName,
}

// A line after the board line.
#[derive(Clone, Copy)]
pub enum Line<'a> {
    Call(Call),
    // the note as it stands in the sheet, without its line feed
    Note(&'a [u8]),
}
