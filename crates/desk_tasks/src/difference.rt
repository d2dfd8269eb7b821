/// The first difference of two arrays.
#[derive(Clone, Copy)]
pub enum Difference {
    /// This page is blank in one of them.
    Blank(u32),
    /// This byte of this page.
    At { page: u32, at: usize },
}
