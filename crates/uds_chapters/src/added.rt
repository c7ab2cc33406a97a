/// What adding a record to the open chapter did.
#[derive(Clone, Copy, Debug, PartialEq, Eq)]
pub enum Added {
    /// Its name is new there.
    New,
    /// It stands in place of an older record of its name.
    Replaced,
    /// 680 other names are there. Nothing changed.
    Full,
}
