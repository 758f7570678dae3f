// An entry of a buffer, with its body where it lies. How long that is stands in the contract of each call that shows one (`OfSize`); as a
// fact of the type it would carry the kind as a type parameter through all that has an entry.
#[derive(Clone, Copy, PartialEq, Debug)]
pub struct Entry<'a> {
    pub number: u32,
    pub body: &'a [u8],
}
