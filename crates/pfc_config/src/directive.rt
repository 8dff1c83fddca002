// The directives by their names.
ghost use Rattle.std.specs.Prelude.{◌≡◌, IfSome};
ghost use Rattle.pfc_config.specs.Directive.{directive_of, row_of};

/// What a line that begins with `pfc.` speaks of.
#[derive(Clone, Copy, Debug, PartialEq, Eq)]
pub(crate) enum Directive {
    BlockSize,
    Ram,
    Prefetch,
    WriteQueue,
    Flush,
    DiskUsage,
    User,
    Spaces,
    Trace,
}

/// The directive of this name.
pub(crate) fn find_directive(word: &[u8]) -> Option<Directive>
    ensures value { result ≡ directive_of word.now }
    ensures name { IfSome result (λ directive. word.now ≡ (row_of directive).name) }
{
    if word == b"pfc.blocksize".as_slice() {
        Some(Directive::BlockSize)
    } else if word == b"pfc.ram".as_slice() {
        Some(Directive::Ram)
    } else if word == b"pfc.prefetch".as_slice() {
        Some(Directive::Prefetch)
    } else if word == b"pfc.writequeue".as_slice() {
        Some(Directive::WriteQueue)
    } else if word == b"pfc.flush".as_slice() {
        Some(Directive::Flush)
    } else if word == b"pfc.diskusage".as_slice() {
        Some(Directive::DiskUsage)
    } else if word == b"pfc.user".as_slice() {
        Some(Directive::User)
    } else if word == b"pfc.spaces".as_slice() {
        Some(Directive::Spaces)
    } else if word == b"pfc.trace".as_slice() {
        Some(Directive::Trace)
    } else {
        None
    }
}
