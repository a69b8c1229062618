// The laws are functions without a body: that they can be called is all that there is to see.
use delivery_book::endpoint_records_leave;
use relay_types::rows_follow;

#[test]
fn laws_are_called() {
    rows_follow();
    endpoint_records_leave();
}
