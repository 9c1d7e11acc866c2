use nav_proto::ReplyText;

/// What a line is answered with.
#[derive(Debug, Drop)]
pub struct Step {
    /// The reply's text with the newline that ends it.
    pub reply: ReplyText,
    /// Whether the line ends the session.
    pub quit: bool,
}
