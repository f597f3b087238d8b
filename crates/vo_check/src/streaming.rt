//! Which queries' replies are checked as they come.
ghost use Rattle.std.specs.Prelude.{◌≡◌, true, false};
ghost use Rattle.vo_spec.specs.Conditions.{query_of};
ghost use Rattle.vo_check.specs.Streaming.{IsStreamed, IsBuffered};

use vo_spec::QueryText;

/// Whether a reply to the query is checked as it comes. The pieces of others are kept.
pub(crate) fn is_streamed(query: &QueryText) -> bool
    ensures yes { result ≡ true → IsStreamed (query_of query.now) }
    ensures no { result ≡ false → IsBuffered (query_of query.now) }
{
    query.join.is_none() && query.limit.is_none()
}
