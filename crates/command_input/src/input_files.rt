//! What a command reads.
use cmd_words::Named;

/// The file that a command reads beside its query and its tables.
#[derive(Clone, Copy, Drop)]
pub enum SideFile<'a> {
    /// There is none.
    Nothing,
    /// The file of a script.
    Script(&'a str),
    /// The file of a certificate.
    Certificate(&'a str),
}

/// What a command reads. Files, tables and items have the names that the command line gives them.
#[derive(Clone, Copy, Drop)]
pub struct InputFiles<'a> {
    /// The file of the query.
    pub query: &'a str,
    /// Whether the query may have several branches.
    pub several: bool,
    /// The file of the script or of the certificate, if there is one.
    pub aside: SideFile<'a>,
    /// The files of the tables.
    pub named: &'a [Named],
    /// The alias of the item of which each row's best answer is asked for, if there is one.
    pub best_of: Option<&'a str>,
}
