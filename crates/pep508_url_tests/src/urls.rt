//! URLs of requirements.

use pep508_url::{
    Pep508Url, Scheme, UnnamedRequirementUrl, Vars, VerbatimUrl, expand_env_vars,
    normalize_absolute_path, normalize_url_path,
};
use serde_json::Value;
use std::alloc::{AllocError, Global};
use std::hash::{DefaultHasher, Hash, Hasher};
use std::test::Fail;
use url::Url;

fn variables(alloc: Global) -> Result<Vars, AllocError> {
    Vars::new(alloc, &[("R", "/a"), ("S", "${R}"), ("R", "/b")], "/w")
}

#[test]
fn keeps_variables(rt: HostRuntime) -> Result<(), Fail> {
    let vars = variables(rt.alloc())?;
    assert_eq!(rt; vars.project_root(), "/w");
    assert_eq!(rt; vars.value("R"), Some("/a"));
    assert_eq!(rt;
        expand_env_vars(rt.alloc(), "${PROJECT_ROOT}/x", &vars)?.as_str(),
        "/w/x"
    );
    Ok(())
}

#[test]
fn knows_schemes(rt: HostRuntime) -> Result<(), Fail> {
    assert_eq!(rt; Scheme::parse("hg+static-http"), Some(Scheme::HgStaticHttp));
    assert_eq!(rt; Scheme::parse("HTTPS"), None);
    assert!(rt; Scheme::File.is_file() && !Scheme::GitFile.is_file());
    assert_eq!(rt; Scheme::SvnSvn.to_string(rt.alloc())?.as_str(), "svn+svn");
    Ok(())
}

const PATHS: [(&str, &str); 7] = [
    ("/", "/"),
    ("/a/./b//../c/", "/a/c"),
    ("//a", "/a"),
    ("/a/..", "/"),
    ("a/../b", "b"),
    ("/...", "/..."),
    ("/a/../..", "path could not be normalized: /a/../.."),
];

/// Returns the normal path, or the print of the error.
fn normal_path(alloc: Global, path: &str) -> Result<String, AllocError> {
    match normalize_absolute_path(alloc, path) {
        Ok(normal) => Ok(normal),
        Err(error) => error.to_string(alloc),
    }
}

#[test]
fn normalizes_paths(rt: HostRuntime) -> Result<(), Fail> {
    for (path, want) in PATHS {
        assert_eq!(rt; normal_path(rt.alloc(), path)?.as_str(), want);
    }
    Ok(())
}

#[test]
fn decodes_paths_of_urls(rt: HostRuntime) -> Result<(), Fail> {
    for (path, want) in [("/a%20b%2", "/a b%2"), ("/%FF%20", "/%FF%20")] {
        assert_eq!(rt; normalize_url_path(rt.alloc(), path)?.as_str(), want);
    }
    Ok(())
}

#[test]
fn keeps_what_was_given(rt: HostRuntime) -> Result<(), Fail> {
    let alloc = rt.alloc();
    let url = VerbatimUrl::from_path(alloc, "x", "/w")?;
    assert_eq!(rt; url.given(), None);
    let url = url.with_given(String::from_str(alloc, "./x")?);
    let copy = url.try_clone(alloc)?;
    assert_eq!(rt; copy.given(), Some("./x"));
    Ok(())
}

fn hash_of(url: &VerbatimUrl) -> u64 {
    let mut hasher = DefaultHasher::new();
    url.hash(&mut hasher);
    hasher.finish()
}

#[test]
fn compares_urls(rt: HostRuntime) -> Result<(), Fail> {
    let first = VerbatimUrl::from_absolute_path(rt.alloc(), "/w/x")?;
    let second = VerbatimUrl::from_str(rt.alloc(), "file:///w/./x")?;
    assert!(rt; first == second);
    assert!(rt; hash_of(&first) == hash_of(&second));
    Ok(())
}

/// Returns whether a JSON value is this URL, with no text given.
fn says(alloc: Global, value: &Value, url: &VerbatimUrl) -> bool {
    match VerbatimUrl::from_value(alloc, value) {
        Ok(again) => again == *url && again.given().is_none(),
        Err(_) => false,
    }
}

#[test]
fn turns_into_values_and_back(rt: HostRuntime) -> Result<(), Fail> {
    let url = VerbatimUrl::from_str(rt.alloc(), "https://e.example")?;
    let value = url.to_value(rt.alloc())?;
    assert_eq!(rt; value.as_str(), Some("https://e.example/"));
    assert!(rt; says(rt.alloc(), &value, &url));
    Ok(())
}

#[test]
fn refuses_another_value(rt: HostRuntime) {
    assert!(rt; VerbatimUrl::from_value(rt.alloc(), &Value::from(1u64)).is_err());
}

#[test]
fn gives_the_url(rt: HostRuntime) -> Result<(), Fail> {
    let url = VerbatimUrl::from_str(rt.alloc(), "https://e.example/a")?;
    assert_eq!(rt; url.to_url()?.as_str(), "https://e.example/a");
    assert_eq!(rt; url.to_string(rt.alloc())?.as_str(), "https://e.example/a");
    assert_eq!(rt; url.raw().as_str(), "https://e.example/a");
    assert_eq!(rt; url.into_url().path(), "/a");
    Ok(())
}

/// Returns whether the text is read without a directory; `None` where memory ran out.
fn reads<T: Pep508Url>(alloc: Global, text: &str, vars: &Vars) -> Option<bool> {
    match T::parse_url(alloc, text, vars, None) {
        Ok(_) => Some(true),
        Err(error) => {
            if T::is_memory(&error) {
                None
            } else {
                Some(false)
            }
        }
    }
}

fn reads_path<T: UnnamedRequirementUrl>(alloc: Global, path: &str) -> bool {
    T::parse_absolute_path(alloc, path).is_ok()
}

#[test]
fn reads_through_bounds(rt: HostRuntime) -> Result<(), Fail> {
    let vars = variables(rt.alloc())?;
    assert!(rt; reads::<Url>(rt.alloc(), "https://e.example", &vars) == Some(true));
    assert!(rt; reads::<Url>(rt.alloc(), "${R}", &vars) == Some(false));
    assert!(rt; reads::<VerbatimUrl>(rt.alloc(), "${R}", &vars) == Some(true));
    assert!(rt; reads::<VerbatimUrl>(rt.alloc(), "./x", &vars) == Some(false));
    assert!(rt; reads_path::<VerbatimUrl>(rt.alloc(), "/a"));
    Ok(())
}
