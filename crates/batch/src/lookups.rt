// What the book says of the codes of a batch's records, looked up once a code before the rules are asked.
ghost use Rattle.std.specs.Prelude.{◌≡◌, ◌≤◌, length};
ghost use Rattle.record.specs.Value.{Has, seen, held};
ghost use Rattle.book.specs.Book.{Usable, listed_at};
ghost use Rattle.batch.specs.Batch.{location_only, betc_only, location, betc, detail_codes};

use book::Book;
use book::search::look_up;
use record::layout::*;
use record::{Field, Line};
use rules::Codes;

// The codes of a record that has none.
const NONE: Codes = Codes {
    locations: false,
    betcs: false,
    types: false,
    states: false,
    countries: false,
    currencies: false,
};

// The codes of a record that has none but a location, listed or not.
pub(crate) fn location_only(listed: bool) -> Codes
    ensures { result ≡ location_only listed }
{
    Codes {
        locations: listed,
        ..NONE
    }
}

// The codes of a record that has none but a BETC, listed or not.
pub(crate) fn betc_only(listed: bool) -> Codes
    ensures { result ≡ betc_only listed }
{
    Codes {
        betcs: listed,
        ..NONE
    }
}

// What the book says of the location in a field (14, 29).
pub(crate) fn location(
    book: &[u8],
    shelves: Book,
    rec: &[u8],
    line: Line,
    field: Field,
) -> Option<bool>
    requires { Usable book.now shelves × Has rec.now field × (field.width ≤ 40) }
    ensures { result ≡ location (listed_at book.now shelves) (held (seen line rec.now) field) }
{
    let locations = shelves.locations;
    look_up(book, locations, rec, line, field)
}

// What the book says of a DT's BETC (field 86).
pub(crate) fn betc(book: &[u8], shelves: Book, rec: &[u8], line: Line) -> Option<bool>
    requires { Usable book.now shelves × (length rec.now ≡ 850) }
    ensures { result ≡ betc (listed_at book.now shelves) (seen line rec.now) }
{
    let betcs = shelves.betcs;
    look_up(book, betcs, rec, line, BUSINESS_EVENT_TYPE_CODE)
}

// Which codes of a detail are in the book (fields 28, 35, 38 and 52), its payer's location being listed or not.
pub(crate) fn detail_codes(
    book: &[u8],
    shelves: Book,
    rec: &[u8],
    line: Line,
    location: bool,
) -> Codes
    requires { Usable book.now shelves × (length rec.now ≡ 850) }
    ensures { result ≡ detail_codes (listed_at book.now shelves) location (seen line rec.now) }
{
    let types = shelves.types;
    let states = shelves.states;
    let countries = shelves.countries;
    let currencies = shelves.currencies;
    let payment_type = look_up(book, types, rec, line, PAYMENT_TYPE_CODE);
    let state = look_up(book, states, rec, line, STATE_CODE);
    let country = look_up(book, countries, rec, line, COUNTRY_CODE);
    let currency = look_up(book, currencies, rec, line, ORIGINAL_CURRENCY_CODE);
    Codes {
        locations: location,
        betcs: false,
        types: payment_type.is_some(),
        states: state.is_some(),
        countries: country.is_some(),
        currencies: currency.is_some(),
    }
}
