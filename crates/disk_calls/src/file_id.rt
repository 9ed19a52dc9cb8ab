ghost use Rattle.std.specs.Prelude.{◌≡◌};
ghost use Rattle.disk_calls.specs.FileNames.{second_of};

/// The name of a file of a stream. A number is that of the file's first offset.
#[derive(Clone, Copy, Debug, PartialEq, Eq, PartialOrd, Ord)]
pub enum FileName {
    /// The chunks from this offset on.
    Segment(u64),
    /// The places of the chunks from this offset on.
    Index(u64),
    /// The epochs that a member promised.
    Promise,
    /// The epochs of the streams, of stream 0.
    Epochs,
    /// The places of the changes of the catalog, of stream 0.
    CatalogWords,
    /// The changes of the catalog, of stream 0.
    CatalogBytes,
    /// `Promise` in its second form.
    PromiseTwo,
    /// `Epochs` in its second form.
    EpochsTwo,
    /// `CatalogWords` in its second form.
    CatalogWordsTwo,
}

impl FileName {
    /// The file in which the second form of a gated file stands.
    pub fn second(self) -> Option<FileName>
        ensures { result ≡ second_of self }
    {
        match self {
            FileName::Promise => Some(FileName::PromiseTwo),
            FileName::Epochs => Some(FileName::EpochsTwo),
            FileName::CatalogWords => Some(FileName::CatalogWordsTwo),
            _ => None,
        }
    }
}

/// A file.
#[derive(Clone, Copy, Debug, PartialEq, Eq, PartialOrd, Ord)]
pub struct FileId {
    /// The number of its stream.
    pub stream: u32,
    /// Its name there.
    pub file: FileName,
}
