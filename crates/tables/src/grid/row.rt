// One state of a table: its value, and the states to which the letters lead. Past the letters stands 0.
#[derive(Clone, Copy)]
pub struct Row {
    pub value: u8,
    pub next: [u8; 16],
}
