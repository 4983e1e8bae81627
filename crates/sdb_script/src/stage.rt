ghost use Rattle.std.specs.Prelude.{◌≡◌};
ghost use Rattle.sdb_script.specs.Words.{stage_of};

/// A stage of the pipeline by which commits come to the tables, each named by a line of its own.
#[derive(Clone, Copy, Debug, PartialEq, Eq)]
pub enum Stage {
    /// `log`: logs the oldest commit that isn't logged, or makes room for it.
    Log,
    /// `flush`: makes sure that what is logged outlasts a crash.
    Flush,
    /// `enact`: writes the oldest flushed record that isn't enacted to the tables.
    Enact,
    /// `clean`: makes sure that what is enacted outlasts a crash without its records.
    Clean,
    /// `grow`: moves a batch of an index that grows.
    Grow,
}

// The stage that the word names.
pub(crate) fn parse_stage_name(word: &[u8]) -> Option<Stage>
    ensures { result ≡ stage_of word.now }
{
    if word == b"log".as_slice() {
        Some(Stage::Log)
    } else if word == b"flush".as_slice() {
        Some(Stage::Flush)
    } else if word == b"enact".as_slice() {
        Some(Stage::Enact)
    } else if word == b"clean".as_slice() {
        Some(Stage::Clean)
    } else if word == b"grow".as_slice() {
        Some(Stage::Grow)
    } else {
        None
    }
}
