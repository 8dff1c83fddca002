//! A small site's catalog, call by call.
ghost use Rattle.std.specs.Prelude.{◌<◌};

use crate::{Catalog, Entered, Victim, plan};
use pfc_base::Path;
use std::alloc::Global;
use std::test::Fail;

/// The path of a slash, a letter and three digits.
fn numbered(number: u32) -> Result<Path, Fail>
    requires { number < 1000 }
{
    let digit = |place: u32| -> u8 { b'0' + (place % 10) as u8 };
    let bytes = [
        b'/',
        b'p',
        digit(number / 100),
        digit(number / 10),
        digit(number),
    ];
    Ok(Path::read(&bytes)?)
}

fn path(bytes: &[u8]) -> Result<Path, Fail> {
    Ok(Path::read(bytes)?)
}

/// Closes a file's one descriptor, and sends it home with its last access at this moment.
fn send_home(catalog: &mut Catalog, path: &Path, usage: u64, last: u64) -> bool {
    let closed = catalog.close_entry(path);
    let away = catalog.away(path);
    closed && away && catalog.home(path, Some((usage, last)))
}

/// Opens 256 files, which get the instance numbers 0 to 255 in turn.
fn full(alloc: Global) -> Result<Catalog, Fail> {
    let mut catalog = Catalog::new(alloc);
    for number in 0..256 {
        let name = numbered(number)?;
        match catalog.open_entry(&name)? {
            Entered::New { instance, .. } if instance == number as u64 => {}
            _ => return Err("no shell".into()),
        }
        catalog.opened(&name, None);
    }
    Ok(catalog)
}

#[test]
fn the_257th_file_gets_no_shell(rt: HostRuntime) -> Result<(), Fail> {
    let mut catalog = full(rt.alloc())?;
    let last = path(b"/p256")?;
    assert_eq!(rt;
        catalog.open_entry(&last)?,
        Entered::NoShell { instance: 256 }
    );
    assert!(rt; !catalog.known(&last));
    Ok(())
}

#[test]
fn a_shell_is_given_out_again(rt: HostRuntime) -> Result<(), Fail> {
    let mut catalog = full(rt.alloc())?;
    let one = numbered(7)?;
    assert_eq!(rt; catalog.at(7).map(|p| p.as_bytes()), Some(one.as_bytes()));
    assert_eq!(rt;
        catalog.open_entry(&one)?,
        Entered::Join {
            shell: 7,
            instance: 7
        }
    );
    assert!(rt; catalog.close_entry(&one));
    assert!(rt; send_home(&mut catalog, &one, 1, 1));
    let last = path(b"/p256")?;
    assert_eq!(rt;
        catalog.open_entry(&last)?,
        Entered::New {
            shell: 7,
            instance: 256
        }
    );
    Ok(())
}

/// A file was found on disk.
fn learn(
    catalog: &mut Catalog,
    path: &Path,
    usage: u64,
    last: u64,
    marked: bool,
) -> Result<(), Fail> {
    if catalog.known(path) {
        return Err("known already".into());
    }
    catalog.learn(path, usage, last, marked)?;
    Ok(())
}

/// Four files of 4096 bytes at home: two were read last at one moment, two at a later one.
fn four(alloc: Global) -> Result<Catalog, Fail> {
    let mut catalog = Catalog::new(alloc);
    learn(&mut catalog, &path(b"/z")?, 4096, 30, false)?;
    learn(&mut catalog, &path(b"/y")?, 4096, 30, false)?;
    learn(&mut catalog, &path(b"/x")?, 4096, 20, false)?;
    learn(&mut catalog, &path(b"/w")?, 4096, 20, false)?;
    Ok(catalog)
}

/// Whether a purge takes this file next, at a low mark.
fn takes(catalog: &mut Catalog, low: u64, wanted: &[u8]) -> bool {
    match catalog.take_victim(low) {
        Victim::Take(path) => path.as_bytes() == wanted,
        _ => false,
    }
}

/// Whether a purge takes this file next, and can say once that it is gone.
fn removes(catalog: &mut Catalog, low: u64, wanted: &[u8]) -> Result<bool, Fail> {
    let taken = takes(catalog, low, wanted);
    let name = path(wanted)?;
    let gone = catalog.gone(&name);
    Ok(taken && gone && !catalog.gone(&name))
}

#[test]
fn equal_moments_are_purged_by_path_and_open_files_never(rt: HostRuntime) -> Result<(), Fail> {
    let mut catalog = four(rt.alloc())?;
    let open = path(b"/w")?;
    catalog.open_entry(&open)?;
    catalog.opened(&open, None);
    assert_eq!(rt; catalog.usage(), 16384);
    assert!(rt; removes(&mut catalog, 8000, b"/x")?);
    assert!(rt; removes(&mut catalog, 8000, b"/y")?);
    assert!(rt; removes(&mut catalog, 8000, b"/z")?);
    assert!(rt;
        matches!(
            catalog.take_victim(8000),
            Victim::Enough {
                usage: 4096,
                low: 8000
            }
        )
    );
    assert!(rt; matches!(catalog.take_victim(0), Victim::NoneLeft));
    Ok(())
}

#[test]
fn a_kept_file_is_not_taken_again(rt: HostRuntime) -> Result<(), Fail> {
    let mut catalog = four(rt.alloc())?;
    let kept = path(b"/w")?;
    assert!(rt; takes(&mut catalog, 0, b"/w"));
    assert_eq!(rt; catalog.open_entry(&kept)?, Entered::Wait);
    assert!(rt; catalog.kept(&kept));
    assert_eq!(rt; catalog.usage(), 16384);
    assert!(rt; takes(&mut catalog, 0, b"/x"));
    Ok(())
}

/// Two files of the greatest usage, and a marked one of five bytes.
fn heavy(alloc: Global) -> Result<Catalog, Fail> {
    let mut catalog = Catalog::new(alloc);
    learn(&mut catalog, &path(b"/a")?, u64::MAX, 1, false)?;
    learn(&mut catalog, &path(b"/b")?, u64::MAX, 2, false)?;
    learn(&mut catalog, &path(b"/c")?, 5, 3, true)?;
    Ok(catalog)
}

#[test]
fn usage_stays_at_the_greatest_number(rt: HostRuntime) -> Result<(), Fail> {
    let mut catalog = heavy(rt.alloc())?;
    assert_eq!(rt; catalog.usage(), u64::MAX);
    assert!(rt; removes(&mut catalog, 5, b"/a")?);
    assert_eq!(rt; catalog.usage(), u64::MAX);
    assert!(rt; removes(&mut catalog, 5, b"/b")?);
    assert_eq!(rt; catalog.usage(), 5);
    assert!(rt; matches!(catalog.take_victim(4), Victim::NoneLeft));
    Ok(())
}

#[test]
fn what_was_written_counts(rt: HostRuntime) -> Result<(), Fail> {
    let mut catalog = Catalog::new(rt.alloc());
    let one = path(b"/a")?;
    catalog.open_entry(&one)?;
    assert!(rt; !catalog.grew(&one, 100));
    assert!(rt; catalog.opened(&one, Some(1000)));
    assert!(rt; catalog.grew(&one, 100));
    assert_eq!(rt; catalog.usage(), 1100);
    Ok(())
}

#[test]
fn a_file_goes_home_once_it_is_closed(rt: HostRuntime) -> Result<(), Fail> {
    let mut catalog = Catalog::new(rt.alloc());
    let one = path(b"/a")?;
    catalog.open_entry(&one)?;
    catalog.opened(&one, None);
    assert!(rt; !catalog.away(&one));
    assert!(rt; catalog.close_entry(&one));
    assert!(rt; !catalog.close_entry(&one));
    assert!(rt; catalog.away(&one));
    assert_eq!(rt; catalog.find(&one), Some((0, 0)));
    assert!(rt; catalog.at(0).is_none());
    Ok(())
}

#[test]
fn what_was_found_at_home_counts(rt: HostRuntime) -> Result<(), Fail> {
    let mut catalog = Catalog::new(rt.alloc());
    let one = path(b"/a")?;
    catalog.open_entry(&one)?;
    catalog.opened(&one, Some(1000));
    assert!(rt; send_home(&mut catalog, &one, 900, 7));
    assert_eq!(rt; catalog.usage(), 900);
    assert_eq!(rt; catalog.find(&one), None);
    Ok(())
}

#[test]
fn an_abandoned_file_gives_its_shell_back(rt: HostRuntime) -> Result<(), Fail> {
    let mut catalog = Catalog::new(rt.alloc());
    let one = path(b"/a")?;
    assert_eq!(rt;
        catalog.open_entry(&one)?,
        Entered::New {
            shell: 0,
            instance: 0
        }
    );
    assert_eq!(rt; catalog.draw(), 1);
    assert!(rt; catalog.abandon(&one));
    assert!(rt; !catalog.abandon(&one));
    assert_eq!(rt;
        catalog.open_entry(&one)?,
        Entered::New {
            shell: 0,
            instance: 2
        }
    );
    Ok(())
}

/// Whether a plan names these files in this order.
fn names(plan: &[Path], wanted: &[&[u8]]) -> bool {
    plan.len() == wanted.len()
        && plan
            .iter()
            .zip(wanted.iter())
            .all(|(row, bytes)| row.as_bytes() == *bytes)
}

#[test]
fn a_plan_is_the_shortest_that_is_enough(rt: HostRuntime) -> Result<(), Fail> {
    let alloc = rt.alloc();
    let catalog = four(alloc)?;
    let none = plan(alloc, &catalog, 8000, 16384)?;
    assert!(rt; none.is_empty());
    let three = plan(alloc, &catalog, 8000, 12000)?;
    assert!(rt; names(&three, &[b"/w", b"/x", b"/y"]));
    let two = plan(alloc, &catalog, 8192, 12000)?;
    assert!(rt; names(&two, &[b"/w", b"/x"]));
    Ok(())
}
