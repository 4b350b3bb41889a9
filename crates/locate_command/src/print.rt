//! The printing of where a satellite is, a line at a time. Each line is one put.
ghost use Rattle.std.specs.Prelude.{◌++◌, ◌≤◌, None, codes, length};
ghost use Rattle.catalogue.specs.Entries.{IsName};
ghost use Rattle.locate_command.specs.Located.{edge_lines};
ghost use Rattle.pass_text.specs.LocateLayout.{edge_line, found_lines, locate_layout};
ghost use Rattle.pass_text.specs.SatLine.{sat_line};
ghost use Rattle.run_ends.specs.Printed.{IsPrinted};
ghost use Rattle.sat_locate.specs.Found.{IsWellNamed, edge_record, found_record, locate_record};

use elements::Text;
use outside_io::{Failed, Sink};
use pass_text::{DECAYED, END, PASSLOCATE, at_line, edge_line, missing_line, sat_line};
use run_ends::put_line;
use sat_locate::{Edge, Found, LocAnswer};
use sgp4_shape::SatFault;

/// Puts the whole layout.
pub(crate) fn print_located<K: Sink>(answer: &LocAnswer, out: &mut K) -> Result<(), Failed>
    requires { IsWellNamed (found_record answer.now.found) }
    ensures { IsPrinted K.Sink result out.old out.new (locate_layout (locate_record answer.now)) }
{
    put_line(PASSLOCATE, out)?;
    put_line(at_line(answer.at).bytes(), out)?;
    print_found(answer.number, &answer.found, out)?;
    put_line(END, out)
}

/// Puts what was found of the satellite with a number.
fn print_found<K: Sink>(number: u32, found: &Found, out: &mut K) -> Result<(), Failed>
    requires { IsWellNamed (found_record found.now) }
    ensures { IsPrinted K.Sink result out.old out.new (found_lines number (found_record found.now)) }
{
    match found {
        Found::Missing => put_line(missing_line(number).bytes(), out),
        Found::Refused { fault, name } => print_satellite(number, Some(*fault), name, out),
        Found::Inside { name, x, y, z } => print_inside(number, name, *x, *y, *z, out),
        Found::Decayed { name } => print_decayed(number, name, out),
    }
}

/// Puts the line of a satellite and the bounds of its position.
fn print_inside<K: Sink>(
    number: u32,
    name: &Text,
    x: Edge,
    y: Edge,
    z: Edge,
    out: &mut K,
) -> Result<(), Failed>
    requires { IsName name.now }
    ensures { IsPrinted K.Sink result out.old out.new (sat_line number None name.now ++ edge_lines x y z) }
{
    print_satellite(number, None, name, out)?;
    print_edges(x, y, z, out)
}

/// Puts the line of a satellite that has decayed.
fn print_decayed<K: Sink>(number: u32, name: &Text, out: &mut K) -> Result<(), Failed>
    requires { IsName name.now }
    ensures { IsPrinted K.Sink result out.old out.new (sat_line number None name.now ++ codes "DECAYED\n") }
{
    print_satellite(number, None, name, out)?;
    put_line(DECAYED, out)
}

/// Puts the line of a satellite.
fn print_satellite<K: Sink>(
    number: u32,
    fate: Option<SatFault>,
    name: &Text,
    out: &mut K,
) -> Result<(), Failed>
    requires { IsName name.now }
    ensures { IsPrinted K.Sink result out.old out.new (sat_line number fate name.now) }
{
    put_line(sat_line(number, fate, name.bytes()).bytes(), out)
}

/// Puts the bounds of the three coordinates.
fn print_edges<K: Sink>(x: Edge, y: Edge, z: Edge, out: &mut K) -> Result<(), Failed>
    ensures { IsPrinted K.Sink result out.old out.new (edge_lines x y z) }
{
    print_edge(b"X", x, out)?;
    print_edge(b"Y", y, out)?;
    print_edge(b"Z", z, out)
}

/// Puts the bounds of a coordinate behind its letter.
fn print_edge<K: Sink>(letter: &[u8], edge: Edge, out: &mut K) -> Result<(), Failed>
    requires { length letter.now ≤ 1 }
    ensures { IsPrinted K.Sink result out.old out.new (edge_line letter.now edge.low edge.high) }
{
    put_line(edge_line(letter, edge.low, edge.high).bytes(), out)
}
