use super::*;
use std::test::Fail;

/// The line and the kind, where the text is refused.
fn refused(text: &[u8]) -> Option<(u32, Kind)> {
    match read_config(text, 1000) {
        Ok(_) => None,
        Err(ConfigRefusal::Bad { line, kind }) => Some((line, kind)),
    }
}

const DEFAULTS: Config = Config {
    blocksize: 131072,
    ram: 268435456,
    flush: 100,
    low: 900,
    high: 950,
    prefetch: 10,
    queue: 16,
    writers: 4,
};

#[test]
fn a_site_is_accepted(rt: HostRuntime) {
    let text = b"all.export /
ofs.osslib libXrdPss.so
pss.cachelib libXrdPfc.so
pss.origin data.example.org:1094
oss.localroot /cache
pfc.blocksize 512k
pfc.ram 16g
pfc.prefetch 0
pfc.writequeue 16 4
pfc.diskusage 0.90 0.95
pfc.spaces data meta
pfc.user xrootd
pfc.trace info
";
    let config = Config {
        blocksize: 524288,
        ram: 17179869184,
        prefetch: 0,
        ..DEFAULTS
    };
    assert_eq!(rt; read_config(text, 1000), Ok(config));
    assert_eq!(rt; read_config(b"", 1000), Ok(DEFAULTS));
}

#[test]
fn the_example_is_accepted(rt: HostRuntime) {
    let text = b"# A cache in front of the data servers of one site.
#
# Lines that begin with pfc. set up the cache. Lines of other components
# are passed over.

all.export /store
all.adminpath /var/spool/xrootd
all.pidpath   /var/run/xrootd

xrd.port 1094
xrootd.async off

ofs.osslib    libXrdPss.so
pss.cachelib  libXrdPfc.so
pss.origin    data.example.org:1094
oss.localroot /srv/xcache
oss.space     meta /srv/meta
oss.space     data /srv/data

pfc.spaces      data meta
pfc.user        xrootd
pfc.blocksize   1m       # a few reads of most programs
pfc.ram         16g
pfc.prefetch    0        # programs here read with gaps
pfc.writequeue  64 4
pfc.flush       500
pfc.diskusage   0.90 0.95
pfc.trace       info
";
    let config = Config {
        blocksize: 1048576,
        ram: 17179869184,
        prefetch: 0,
        queue: 64,
        flush: 500,
        low: 1800000000000,
        high: 1900000000000,
        ..DEFAULTS
    };
    assert_eq!(rt; read_config(text, 2000000000000), Ok(config));
}

#[test]
fn one_bad_line_is_refused(rt: HostRuntime) {
    let table = [
        (b"if exec xrootd".as_slice(), Kind::Unsupported),
        (b"fi".as_slice(), Kind::Unsupported),
        (b"set name = value".as_slice(), Kind::Unsupported),
        (b"pfc.decisionlib x".as_slice(), Kind::Unsupported),
        (b"pfc.cschk off".as_slice(), Kind::Unsupported),
        (
            b"pfc.diskusage 0.5 0.9 files 1g 2g".as_slice(),
            Kind::Unsupported,
        ),
        (b"pfc.diskusage files 1g".as_slice(), Kind::Unsupported),
        (
            b"pfc.diskusage 0.5 0.9 purgeinterval 5m".as_slice(),
            Kind::Unsupported,
        ),
        (b"pfc.trace $x".as_slice(), Kind::Unsupported),
        (b"all.export / \\ \t\r".as_slice(), Kind::Unsupported),
        (b"# a comment \\".as_slice(), Kind::Unsupported),
        (b"pfc.foo 1".as_slice(), Kind::Unknown),
        (b"pfc.ram".as_slice(), Kind::Arity),
        (b"pfc.ram 1g 2g".as_slice(), Kind::Arity),
        (b"pfc.ram # 1g".as_slice(), Kind::Arity),
        (b"pfc.ram x".as_slice(), Kind::Number),
        (b"pfc.ram 18446744073709551616".as_slice(), Kind::Number),
        (b"pfc.ram 8388608t".as_slice(), Kind::Number),
        (b"pfc.prefetch 010".as_slice(), Kind::Number),
        (b"pfc.diskusage 0.1234567 0.95".as_slice(), Kind::Number),
        (b"pfc.diskusage 0. 0.95".as_slice(), Kind::Number),
        (b"pfc.prefetch 129".as_slice(), Kind::Range),
        (b"pfc.diskusage 0.95 0.90".as_slice(), Kind::Range),
        (b"pfc.diskusage 1 1001".as_slice(), Kind::Range),
        (b"pfc.blocksize 5000".as_slice(), Kind::Range),
        (b"pfc.ram 68719476737".as_slice(), Kind::Range),
    ];
    for (text, kind) in table {
        assert_eq!(rt; refused(text), Some((1, kind)));
    }
}

#[test]
fn lines_are_numbered_and_told_apart(rt: HostRuntime) {
    assert_eq!(rt;
        refused(b"all.export /\n# cache\npfc.blocksize 5000"),
        Some((3, Kind::Range))
    );
    assert_eq!(rt; refused(b"pfc.user a\npfc.user b\n"), None);
    assert_eq!(rt;
        refused(b"pfc.blocksize 4k\n\npfc.blocksize 4k\n"),
        Some((3, Kind::Twice))
    );
    assert_eq!(rt;
        refused(b"pfc.ram 15k\npfc.blocksize 4k\n"),
        Some((1, Kind::Range))
    );
    assert_eq!(rt;
        refused(b"pfc.ram 15k\npfc.foo 1\n"),
        Some((2, Kind::Unknown))
    );
    assert_eq!(rt;
        refused(b"pfc.ram 16k # four\n\tpfc.blocksize\t4K\r\n"),
        None
    );
}

#[test]
fn long_lines_and_files_are_refused(rt: HostRuntime) -> Result<(), Fail> {
    let mut text = vec![in rt.alloc(); b' '; 4097]?;
    assert_eq!(rt; refused(&text), Some((1, Kind::TooLong)));
    let _ = text.pop();
    assert_eq!(rt; refused(&text), None);
    let mut text = vec![in rt.alloc(); b'\n'; 1048577]?;
    assert_eq!(rt; refused(&text), Some((0, Kind::TooLong)));
    let _ = text.pop();
    assert_eq!(rt; refused(&text), None);
    Ok(())
}

#[test]
fn kinds_print(rt: HostRuntime) -> Result<(), Fail> {
    let refusal = ConfigRefusal::Bad {
        line: 3,
        kind: Kind::TooLong,
    };
    assert_eq!(rt;
        format!(in rt.alloc(); "{refusal}")?.as_str(),
        "config 3 toolong"
    );
    Ok(())
}
