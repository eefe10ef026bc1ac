// The listing of a plan, line by line, each written into a buffer from an index on. Each function gives back the index behind what it wrote.
#![tactic(auto)]

ghost use Rattle.std.specs.Prelude.{◌≡◌, [], ◌∷◌, ◌+◌, ◌*◌, ◌≤◌, ◌<◌, length};
ghost use Rattle.counting.specs.Buffers.{Written};
ghost use Rattle.survey.specs.Rows.{row_at, place_of};
ghost use Rattle.listing.specs.Listing.{decimal, spaced, numbers_text, line, sites_word, street_line, street_lines, listing};

use byte_writer::write_list;
use survey::{Town, rows};

// A number in decimal; 48 is the digit 0.
fn write_decimal(x: usize, out: &mut [u8], i: usize) -> usize
    requires { i + length (decimal x) ≤ length out.old }
    ensures { Written out.old i (decimal x) out.new result }
{
    if x < 10 {
        out[i] = (48 + x) as u8;
        return i + 1;
    }
    let next = write_decimal(x / 10, out, i);
    out[next] = (48 + x % 10) as u8;
    next + 1
}

// A number behind a space.
fn write_spaced(x: usize, out: &mut [u8], i: usize) -> usize
    requires { i + length (spaced x) ≤ length out.old }
    ensures { Written out.old i (spaced x) out.new result }
{
    out[i] = b' ';
    write_decimal(x, out, i + 1)
}

// A line of a word and one number.
pub fn write_line(word: &[u8], x: usize, out: &mut [u8], i: usize) -> usize
    requires { i + length (line word.now (x ∷ [])) ≤ length out.old }
    ensures { Written out.old i (line word.now (x ∷ [])) out.new result }
{
    let behind_word = write_list(word, out, i);
    let next = write_spaced(x, out, behind_word);
    out[next] = b'\n';
    next + 1
}

// The sites of a list, in their order.
fn write_sites(sites: &[u8], out: &mut [u8], i: usize) -> usize
    requires { i + length (numbers_text sites.now) ≤ length out.old }
    ensures { Written out.old i (numbers_text sites.now) out.new result }
{
    let mut next = i;
    for site in sites {
        next = write_spaced(*site as usize, out, next);
    }
    next
}

// The line of the chosen sites.
fn write_chosen(sites: &[u8], out: &mut [u8], i: usize) -> usize
    requires { i + length (line sites_word sites.now) ≤ length out.old }
    ensures { Written out.old i (line sites_word sites.now) out.new result }
{
    let behind_word = write_list(b"sites", out, i);
    let next = write_sites(sites, out, behind_word);
    out[next] = b'\n';
    next + 1
}

// The place that a street gives a site.
fn place_of(town: Town<'_>, s: usize, site: u8) -> usize
    requires { s * town.m + town.m ≤ length town.rows.now }
    ensures { result ≡ place_of (row_at town.entry.m town.entry.rows.now s) site }
{
    rows::place(town.row(s), site)
}

// The line of a street.
fn write_street(town: Town<'_>, division: &[u8], s: usize, out: &mut [u8], i: usize) -> usize
    requires s_in_bounds { (s < length division.now) × (s * town.m + town.m ≤ length town.rows.now) }
    requires s_in_bounds_2 { i + length (street_line town.m town.rows.now division.now s) ≤ length out.old }
    ensures { Written out.old i (street_line town.entry.m town.entry.rows.now division.now s) out.new result }
{
    let site = division[s];
    let place = place_of(town, s, site);
    let behind_word = write_list(b"street", out, i);
    let behind_number = write_spaced(s + 1, out, behind_word);
    let behind_site = write_spaced(site as usize, out, behind_number);
    let next = write_spaced(place, out, behind_site);
    out[next] = b'\n';
    next + 1
}

// The lines of all streets.
fn write_streets(town: Town<'_>, division: &[u8], out: &mut [u8], i: usize) -> usize
    requires m_in_bounds { length division.now * town.m ≤ length town.rows.now }
    requires division_in_bounds { i + length (street_lines town.m town.rows.now division.now) ≤ length out.old }
    ensures { Written out.old i (street_lines town.entry.m town.entry.rows.now division.now) out.new result }
{
    let mut next = i;
    // kept: the new form is no plainer, since s is the street's number, and its row and its site are looked up by it
    for s in 0..division.len() {
        next = write_street(town, division, s, out, next);
    }
    next
}

// The listing of a plan.
pub fn write_listing(
    town: Town<'_>,
    total: usize,
    sites: &[u8],
    division: &[u8],
    out: &mut [u8],
) -> usize
    requires m_in_bounds { length division.now * town.m ≤ length town.rows.now }
    requires division_in_bounds { length (listing town.m town.rows.now total sites.now division.now) ≤ length out.old }
    ensures { Written out.old 0 (listing town.entry.m town.entry.rows.now total sites.now division.now) out.new result }
{
    let behind_total = write_line(b"total", total, out, 0);
    let behind_sites = write_chosen(sites, out, behind_total);
    write_streets(town, division, out, behind_sites)
}
