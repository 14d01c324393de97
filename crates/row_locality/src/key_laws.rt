//! The laws of keys. Each is the contract of a function that does nothing.

ghost use Rattle.row_locality.specs.KeyLaws.{
  KeysOrderAsValues,
  EqualKeysHaveEqualValues,
  NoKeyBeginsAnother,
  PointHoldsOneKey,
  AllRowsAreThePrimaryKeys,
};

/// Byte order of keys is the order of their values, whatever follows them.
pub fn keys_order_as_values()
    ensures { KeysOrderAsValues }
{}

/// Keys of one index with equal bytes are of equal values.
pub fn equal_keys_have_equal_values()
    ensures { EqualKeysHaveEqualValues }
{}

/// No key of a table begins another, and the first byte of a key tells its index.
pub fn no_key_begins_another()
    ensures { NoKeyBeginsAnother }
{}

/// The span of one key holds that key alone.
pub fn point_holds_one_key()
    ensures { PointHoldsOneKey }
{}

/// The span of all rows holds exactly the primary keys.
pub fn all_rows_are_the_primary_keys()
    ensures { AllRowsAreThePrimaryKeys }
{}
