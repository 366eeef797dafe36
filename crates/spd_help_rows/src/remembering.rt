//! A place that remembers what was read.

ghost use Rattle.std.specs.Prelude.{◌≡◌, ℕ, List, None, IfOk};
ghost use Rattle.spd_edge.specs.MemoryPlace.{inputs_of};
ghost use Rattle.spd_edge.specs.Names.{SameButFor};

use spd_edge::{MemIn, MemPlace, Open, Place, read_all};
use spd_help::Remembering;
use std::test::Fail;

/// Puts an input there, which is read in pieces of two bytes.
fn put(rt: &HostRuntime, place: &mut MemPlace, name: &[u8], text: &[u8]) -> Result<(), Fail>
    requires new_name { (inputs_of place.old).put name.now ≡ None }
    ensures others { SameButFor (inputs_of place.old).put (inputs_of place.new).put name.now }
    ensures stage { (inputs_of place.new).stage ≡ (inputs_of place.old).stage }
{
    let bytes = text.to_vec(rt.alloc())?;
    place.put_in(name, MemIn::new(bytes, 2, Vec::new(rt.alloc())))?;
    Ok(())
}

/// A place of three inputs.
fn place_of_three(rt: &HostRuntime) -> Result<MemPlace, Fail>
    ensures fresh { IfOk result (λ place. (name : List ℕ) → (inputs_of place).stage name ≡ None) }
{
    let mut place = MemPlace::new(rt.alloc());
    put(rt, &mut place, b"a", b"hello")?;
    put(rt, &mut place, b"b", b"you")?;
    put(rt, &mut place, b"c", b"all")?;
    Ok(place)
}

/// Reads the input of this name and closes it.
fn read_one<P: Place>(rt: &HostRuntime, place: &mut P, name: &[u8]) -> Result<(), Fail>
    requires fresh { (P.inputs place.old).stage name.now ≡ None }
    ensures others { SameButFor (P.inputs place.old).stage (P.inputs place.new).stage name.now }
{
    match place.open_in(name) {
        Ok(mut input) => {
            let read = read_all(rt.alloc(), &mut input, 9);
            place.close_in(name, input);
            match read {
                Ok(_) => Ok(()),
                Err(_) => Err(Fail::new("not read")),
            }
        }
        Err(Open::Failed | Open::Memory) => Err(Fail::new("not opened")),
    }
}

/// A place of three inputs, which read `hello`, `you` and `all`, all of which were read and closed.
fn read_through(rt: &HostRuntime, wanted: bool) -> Result<Remembering<MemPlace>, Fail> {
    let place = place_of_three(rt)?;
    let mut remembering = Remembering::new(rt.alloc(), place, wanted);
    read_one(rt, &mut remembering, b"a")?;
    read_one(rt, &mut remembering, b"b")?;
    read_one(rt, &mut remembering, b"c")?;
    Ok(remembering)
}

#[test]
fn remembers_two_where_it_is_wanted(rt: HostRuntime) -> Result<(), Fail> {
    let wanted = read_through(&rt, true)?;
    assert_eq!(rt; wanted.first(), b"hello".as_slice());
    assert_eq!(rt; wanted.second(), b"you".as_slice());
    let other = read_through(&rt, false)?;
    assert_eq!(rt; other.first(), b"".as_slice());
    assert_eq!(rt; other.second(), b"".as_slice());
    Ok(())
}
