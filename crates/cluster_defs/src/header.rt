//! What a header says.

use cluster_types::text::Text;

/// The fields of a message's header that are read (Jupyter messaging 5.3, "General Message Format").
#[derive(Debug, Drop)]
pub struct Header {
    /// 1 to 255 octets.
    pub msg_id: Text,
    /// 1 to 255 octets.
    pub msg_type: Text,
    /// Empty where it is absent or no text.
    pub session: Text,
    /// Empty where it is absent or no text.
    pub username: Text,
}
