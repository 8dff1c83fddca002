use crate::print;
use pfc_base::{BlockSet, Memory};
use pfc_cinfo::{Cinfo, Head, Record, Records, encode};
use pfc_memory::{MemoryHost, RowWorld, VecSink};
use std::alloc::Global;
use std::test::Fail;

/// What one call is to leave.
struct Case {
    words: &'static str,
    /// The numbers of the writes that fail.
    writes: &'static [u64],
    status: u8,
    text: &'static str,
}

const CASES: &[Case] = &[
    Case {
        words: "-v a.cinfo",
        writes: &[],
        status: 0,
        text: "cinfo a.cinfo\nversion 4\nblock 4096\nsize 8193\nblocks 3\ncreated 10\naccesses 1\nclaimed 1\nbytes 4096\nruns 0-0\nrecord 10 10 1 0 0 0 4 0\n",
    },
    Case {
        words: "a.cinfo b.cinfo a.cinfo",
        writes: &[],
        status: 2,
        text: "cinfo a.cinfo\nversion 4\nblock 4096\nsize 8193\nblocks 3\ncreated 10\naccesses 1\nclaimed 1\nbytes 4096\nrecord 10 10 1 0 0 0 4 0\ndamaged b.cinfo short\ncinfo a.cinfo\nversion 4\nblock 4096\nsize 8193\nblocks 3\ncreated 10\naccesses 1\nclaimed 1\nbytes 4096\nrecord 10 10 1 0 0 0 4 0\n",
    },
    Case {
        words: "b.cinfo --verbose missing a.cinfo",
        writes: &[],
        status: 3,
        text: "damaged b.cinfo short\nfault missing\n",
    },
    Case {
        words: "-v",
        writes: &[],
        status: 1,
        text: "usage: xrdpfc_print [-v] <cinfo>..\n",
    },
    Case {
        words: "-x a.cinfo",
        writes: &[],
        status: 1,
        text: "usage: xrdpfc_print [-v] <cinfo>..\n",
    },
    Case {
        words: "--help",
        writes: &[],
        status: 1,
        text: "usage: xrdpfc_print [-v] <cinfo>..\n",
    },
    Case {
        words: "b.cinfo b.cinfo",
        writes: &[1],
        status: 4,
        text: "damaged b.cinfo short\n",
    },
];

// A file of 8193 bytes in blocks of 4096, of which the first is held, and one access of one read.
fn example(alloc: Global) -> Result<Vec<u8>, Memory> {
    let mut claims = BlockSet::new(alloc, 3)?;
    claims.set(0);
    let record = Record {
        attach: 10,
        detach: 10,
        ios: 1,
        duration: 0,
        merged: 0,
        hit: 0,
        missed: 4,
        bypassed: 0,
    };
    let records = Vec::from_slice(alloc, &[record])?;
    let cinfo = Cinfo {
        block: 4096,
        size: 8193,
        head: Head {
            created: 10,
            accesses: 1,
            records: Records::from_vec(records),
        },
        claims,
    };
    encode(alloc, &cinfo)
}

fn run(alloc: Global, case: &Case) -> Result<(u8, String), Fail> {
    let mut texts = Vec::new(alloc);
    let cinfo = example(alloc).ok().ok_or("memory")?;
    texts.push((String::from_str(alloc, "a.cinfo")?, cinfo))?;
    texts.push((
        String::from_str(alloc, "b.cinfo")?,
        Vec::from_slice(alloc, &[1, 2, 3])?,
    ))?;
    let mut host: MemoryHost<RowWorld> = MemoryHost::new(
        alloc,
        texts,
        Vec::new(alloc),
        Vec::new(alloc),
    ).ok()
        .ok_or("memory")?;
    let mut out = VecSink::new(alloc, Vec::from_slice(alloc, case.writes)?);
    let mut words = Vec::new(alloc);
    for word in case.words.split(' ') {
        words.push(String::from_str(alloc, word)?)?;
    }
    let status = print(alloc, &words, &mut host, &mut out);
    let text = String::from_utf8(Vec::from_slice(alloc, out.bytes())?)
        .ok()
        .ok_or("text")?;
    Ok((status, text))
}

#[test]
fn statuses_and_texts(rt: HostRuntime) -> Result<(), Fail> {
    for case in CASES {
        let (status, text) = run(rt.alloc(), case)?;
        assert_eq!(rt; status, case.status, "{}", case.words);
        assert_eq!(rt; text.as_str(), case.text, "{}", case.words);
    }
    Ok(())
}
