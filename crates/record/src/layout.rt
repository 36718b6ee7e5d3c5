// The fields of document 004 that the rules read, by their names and positions there.
ghost use Rattle.std.specs.Prelude.{◌≡◌};
ghost use Rattle.record.specs.Layout.{named};

use crate::{Field, Justification};

// Fields 1, 5, 22, 64, 76, 90, 98 and 102: every record begins with its code.
pub const RECORD_CODE: Field = Field {
    start: 1,
    width: 2,
    justification: Justification::Fixed,
};

// Field 2.
pub const INPUT_SYSTEM: Field = Field {
    start: 3,
    width: 40,
    justification: Justification::Text,
};

// Field 3.
pub const VERSION_IDENTIFIER: Field = Field {
    start: 43,
    width: 3,
    justification: Justification::Text,
};

// Field 6.
pub const SCHEDULE_NUMBER: Field = Field {
    start: 3,
    width: 14,
    justification: Justification::Text,
};

// Field 7.
pub const SUMMARY_NUMBER: Field = Field {
    start: 17,
    width: 6,
    justification: Justification::Right,
};

// Field 8.
pub const SUMMARY_DATE: Field = Field {
    start: 23,
    width: 10,
    justification: Justification::Fixed,
};

// Field 9.
pub const SUMMARY_TOTAL_AMOUNT: Field = Field {
    start: 33,
    width: 20,
    justification: Justification::Number,
};

// Field 10.
pub const VOUCHER_FORM_CODE: Field = Field {
    start: 53,
    width: 4,
    justification: Justification::Text,
};

// Field 12.
pub const ORIGINATING_DI: Field = Field {
    start: 60,
    width: 9,
    justification: Justification::Number,
};

// Field 13.
pub const ORIGINATING_DFI: Field = Field {
    start: 69,
    width: 9,
    justification: Justification::Number,
};

// Field 14.
pub const AGENCY_LOCATION_CODE: Field = Field {
    start: 78,
    width: 8,
    justification: Justification::Text,
};

// Field 15.
pub const DISBURSING_OFFICE_SYMBOL: Field = Field {
    start: 86,
    width: 4,
    justification: Justification::Number,
};

// Field 16.
pub const IS_COURTESY_CHECK: Field = Field {
    start: 90,
    width: 1,
    justification: Justification::Text,
};

// Field 17.
pub const CHECK_BATCH_CREATION_DATE: Field = Field {
    start: 91,
    width: 8,
    justification: Justification::Fixed,
};

// Field 18.
pub const CHECK_SYMBOL_NUMBER: Field = Field {
    start: 99,
    width: 4,
    justification: Justification::Number,
};

// Field 19.
pub const CHECK_FIRST_SERIAL_NUMBER: Field = Field {
    start: 103,
    width: 8,
    justification: Justification::Number,
};

// Field 20.
pub const CHECK_ACCOUNTING_MONTH_AND_YEAR: Field = Field {
    start: 111,
    width: 4,
    justification: Justification::Number,
};

// Field 23, and 65, 77 and 91 in the records that follow a detail.
pub const PAYMENT_ID: Field = Field {
    start: 3,
    width: 20,
    justification: Justification::Text,
};

// Field 24.
pub const AMOUNT: Field = Field {
    start: 23,
    width: 20,
    justification: Justification::Number,
};

// Field 25.
pub const IS_VOIDED_CHECK: Field = Field {
    start: 43,
    width: 1,
    justification: Justification::Text,
};

// Field 26.
pub const PAYEE_NAME: Field = Field {
    start: 44,
    width: 47,
    justification: Justification::Text,
};

// Field 28.
pub const PAYMENT_TYPE_CODE: Field = Field {
    start: 107,
    width: 25,
    justification: Justification::Text,
};

// Field 29.
pub const PAYMENT_LOCATION_CODE: Field = Field {
    start: 132,
    width: 8,
    justification: Justification::Text,
};

// Field 35.
pub const STATE_CODE: Field = Field {
    start: 350,
    width: 2,
    justification: Justification::Text,
};

// Field 36.
pub const POSTAL_CODE: Field = Field {
    start: 352,
    width: 5,
    justification: Justification::Number,
};

// Field 38.
pub const COUNTRY_CODE: Field = Field {
    start: 361,
    width: 2,
    justification: Justification::Text,
};

// Field 42.
pub const RECEIVING_DI: Field = Field {
    start: 426,
    width: 9,
    justification: Justification::Number,
};

// Field 43.
pub const RECEIVING_DFI: Field = Field {
    start: 435,
    width: 9,
    justification: Justification::Number,
};

// Field 44.
pub const BUSINESS_FUNCTION_CODE: Field = Field {
    start: 444,
    width: 3,
    justification: Justification::Text,
};

// Field 48.
pub const ACH_TRANSACTION_CODE: Field = Field {
    start: 506,
    width: 2,
    justification: Justification::Text,
};

// Field 51.
pub const PAYER_MECHANISM: Field = Field {
    start: 526,
    width: 20,
    justification: Justification::Text,
};

// Field 52.
pub const ORIGINAL_CURRENCY_CODE: Field = Field {
    start: 546,
    width: 3,
    justification: Justification::Text,
};

// Field 54.
pub const ORIGINAL_SCHEDULE_NUMBER: Field = Field {
    start: 560,
    width: 14,
    justification: Justification::Text,
};

// Field 55.
pub const ORIGINAL_PAYMENT_ID: Field = Field {
    start: 574,
    width: 20,
    justification: Justification::Text,
};

// Field 56.
pub const ORIGINAL_SUMMARY_DATE: Field = Field {
    start: 594,
    width: 10,
    justification: Justification::Fixed,
};

// Field 58.
pub const CHECK_SERIAL_NUMBER: Field = Field {
    start: 654,
    width: 8,
    justification: Justification::Number,
};

// Field 59.
pub const CHECK_ISSUE_DATE: Field = Field {
    start: 662,
    width: 8,
    justification: Justification::Fixed,
};

// Field 62.
pub const STANDARD_ENTRY_CLASS_CODE: Field = Field {
    start: 674,
    width: 3,
    justification: Justification::Text,
};

// Field 66.
pub const PARTY_NAME: Field = Field {
    start: 23,
    width: 150,
    justification: Justification::Text,
};

// Field 80.
pub const AGENCY_IDENTIFIER: Field = Field {
    start: 28,
    width: 3,
    justification: Justification::Text,
};

// Field 84.
pub const MAIN_ACCOUNT_CODE: Field = Field {
    start: 40,
    width: 4,
    justification: Justification::Text,
};

// Field 85.
pub const SUB_ACCOUNT_CODE: Field = Field {
    start: 44,
    width: 3,
    justification: Justification::Text,
};

// Field 86.
pub const BUSINESS_EVENT_TYPE_CODE: Field = Field {
    start: 47,
    width: 8,
    justification: Justification::Text,
};

// Field 87.
pub const ACCOUNT_AMOUNT: Field = Field {
    start: 55,
    width: 20,
    justification: Justification::Number,
};

// Field 96.
pub const PROCUREMENT_AMOUNT: Field = Field {
    start: 131,
    width: 20,
    justification: Justification::Number,
};

// Field 99.
pub const BATCH_TOTAL_COUNT: Field = Field {
    start: 3,
    width: 8,
    justification: Justification::Number,
};

// Field 100.
pub const BATCH_TOTAL_AMOUNT: Field = Field {
    start: 11,
    width: 20,
    justification: Justification::Number,
};

// Field 103.
pub const TOTAL_COUNT_RECORDS: Field = Field {
    start: 3,
    width: 18,
    justification: Justification::Number,
};

// Field 104.
pub const TOTAL_COUNT: Field = Field {
    start: 21,
    width: 18,
    justification: Justification::Number,
};

// Field 105.
pub const TOTAL_AMOUNT: Field = Field {
    start: 39,
    width: 20,
    justification: Justification::Number,
};

// No caller: its contract is the statement that the constants are the rows of 004.
fn constants() -> [Field; 50]
    ensures { result ≡ named }
{
    [
        RECORD_CODE,
        INPUT_SYSTEM,
        VERSION_IDENTIFIER,
        SCHEDULE_NUMBER,
        SUMMARY_NUMBER,
        SUMMARY_DATE,
        SUMMARY_TOTAL_AMOUNT,
        VOUCHER_FORM_CODE,
        ORIGINATING_DI,
        ORIGINATING_DFI,
        AGENCY_LOCATION_CODE,
        DISBURSING_OFFICE_SYMBOL,
        IS_COURTESY_CHECK,
        CHECK_BATCH_CREATION_DATE,
        CHECK_SYMBOL_NUMBER,
        CHECK_FIRST_SERIAL_NUMBER,
        CHECK_ACCOUNTING_MONTH_AND_YEAR,
        PAYMENT_ID,
        AMOUNT,
        IS_VOIDED_CHECK,
        PAYEE_NAME,
        PAYMENT_TYPE_CODE,
        PAYMENT_LOCATION_CODE,
        STATE_CODE,
        POSTAL_CODE,
        COUNTRY_CODE,
        RECEIVING_DI,
        RECEIVING_DFI,
        BUSINESS_FUNCTION_CODE,
        ACH_TRANSACTION_CODE,
        PAYER_MECHANISM,
        ORIGINAL_CURRENCY_CODE,
        ORIGINAL_SCHEDULE_NUMBER,
        ORIGINAL_PAYMENT_ID,
        ORIGINAL_SUMMARY_DATE,
        CHECK_SERIAL_NUMBER,
        CHECK_ISSUE_DATE,
        STANDARD_ENTRY_CLASS_CODE,
        PARTY_NAME,
        AGENCY_IDENTIFIER,
        MAIN_ACCOUNT_CODE,
        SUB_ACCOUNT_CODE,
        BUSINESS_EVENT_TYPE_CODE,
        ACCOUNT_AMOUNT,
        PROCUREMENT_AMOUNT,
        BATCH_TOTAL_COUNT,
        BATCH_TOTAL_AMOUNT,
        TOTAL_COUNT_RECORDS,
        TOTAL_COUNT,
        TOTAL_AMOUNT,
    ]
}
