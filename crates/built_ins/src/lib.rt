// The built-in prefixes and URIs.
#![tactic(auto)]

ghost use Rattle.std.specs.Prelude.{◌≡◌};
ghost use Rattle.rules.specs.Lists.{same_bytes};
ghost use Rattle.rules.specs.Table.{xml_prefix, xmlns_prefix, xml_uri, xmlns_uri};

// The prefix `xml`.
pub fn is_xml(name: &[u8]) -> bool
    ensures { result ≡ same_bytes name.now xml_prefix }
{
    short_strings::same_short(name, b"xml")
}

// The prefix `xmlns`.
pub fn is_xmlns(name: &[u8]) -> bool
    ensures { result ≡ same_bytes name.now xmlns_prefix }
{
    short_strings::same_short(name, b"xmlns")
}

// XML_URI.
pub fn is_xml_uri(uri: &[u8]) -> bool
    ensures { result ≡ same_bytes uri.now xml_uri }
{
    short_strings::same_short(uri, b"http://www.w3.org/XML/1998/namespace")
}

// XMLNS_URI.
pub fn is_xmlns_uri(uri: &[u8]) -> bool
    ensures { result ≡ same_bytes uri.now xmlns_uri }
{
    short_strings::same_short(uri, b"http://www.w3.org/2000/xmlns/")
}
