// All links of a record, of any kind.
ghost use Rattle.std.specs.Prelude.{◌≡◌, ℕ, take, replicate, slice_index};

use kinds::kind::Kind;

// The links of a record, and 0 after them. (An array: a kind has at most 8 links, and a store has no heap memory.)
pub(crate) fn links_of<T: Kind>(one: &T) -> [u32; 8]
    ensures { (k : ℕ) → slice_index result k ≡ slice_index (T.Kind.links one.now) k }
{
    std::array::from_fn(|k| one.link(k))
}

// The record with these links, as many as its kind has.
fn with_links<T: Kind>(one: T, links: [u32; 8]) -> T
    ensures links { T.Kind.links result ≡ take T.Kind.count links }
    ensures plain { T.Kind.plain result ≡ T.Kind.plain one }
{
    let mut made = one;
    for (k, w) in links.iter().enumerate() {
        made.set_link(k, *w);
    }
    made
}

// The record with nothing in its links.
pub(crate) fn without_links<T: Kind>(one: T) -> T
    ensures links { T.Kind.links result ≡ replicate T.Kind.count 0 }
    ensures plain { T.Kind.plain result ≡ T.Kind.plain one }
{
    with_links(one, [0; 8])
}

// Gives a record the plain part of a template.
pub(crate) fn fill<T: Kind>(one: &mut T, template: &T)
    ensures links { T.Kind.links one.new ≡ T.Kind.links one.old }
    ensures plain { T.Kind.plain one.new ≡ T.Kind.plain template.now }
{
    *one = with_links(*template, links_of(one));
}
