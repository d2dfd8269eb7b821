/// What is known of the names of records in order, once all are looked at.
#[derive(Clone, Copy)]
pub struct Names {
    /// No two records have one name.
    pub differ: bool,
    /// The records of each page have one version.
    pub one_version: bool,
}
